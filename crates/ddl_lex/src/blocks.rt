ghost use Rattle.std.specs.Prelude.{◌≡◌, ◌++◌, ◌∷◌, [], map, IfOk, OnOk, IsSome, None};
ghost use Rattle.ddl_lex.specs.Layout as spec;

use crate::place::Place;
use crate::roles::{Last, Role, begin_of, is_first, last_of, list_begins, role_of};
use crate::stack::{Open, Stack};
use ddl_base::NoMemory;
use ddl_token::{Mark, Tok, Token};
use std::alloc::Global;

/// Adds a mark, which has no bytes, at a place.
fn add(laid: &mut Vec<Token>, place: Place, mark: Mark) -> Result<(), NoMemory>
    ensures { OnOk result (laid.new.items ≡ laid.old.items ++ spec.mark_at place mark ∷ []) }
{
    laid.push(Token {
        kind: Tok::Mark(mark),
        line: place.line,
        col: place.column,
        from: place.at,
        to: place.at,
    })?;
    Ok(())
}

/// Begins a list at a token, which is empty where the innermost list reaches the token.
fn begin_list(laid: &mut Vec<Token>, stack: &mut Stack, place: Place) -> Result<(), NoMemory>
    ensures added { OnOk result (laid.new.items ≡ laid.old.items
        ++ map (spec.mark_at place) (spec.begin_list place.column stack.old).0) }
    ensures open { OnOk result (stack.new ≡ (spec.begin_list place.column stack.old).1) }
{
    add(laid, place, Mark::OpenBrace)?;
    if stack.reaches(place.column) {
        add(laid, place, Mark::CloseBrace)
    } else {
        stack.push_items(place.column)
    }
}

/// Ends the lists of a greater column.
fn end_deeper(laid: &mut Vec<Token>, stack: &mut Stack, place: Place) -> Result<(), NoMemory>
    ensures added { OnOk result (laid.new.items ≡ laid.old.items
        ++ map (spec.mark_at place) (spec.end_deeper place.column stack.old).0) }
    ensures open { OnOk result (stack.new ≡ (spec.end_deeper place.column stack.old).1) }
{
    while let Some(column) = stack.column()
        && place.column < column
    {
        add(laid, place, Mark::CloseBrace)?;
        stack.pop();
    }
    Ok(())
}

/// Ends the lists of a greater column, and begins an item in one of the same column.
fn begin_line(laid: &mut Vec<Token>, stack: &mut Stack, place: Place) -> Result<(), NoMemory>
    ensures added { OnOk result (laid.new.items ≡ laid.old.items
        ++ map (spec.mark_at place) (spec.begin_line place.column stack.old).0) }
    ensures open { OnOk result (stack.new ≡ (spec.begin_line place.column stack.old).1) }
{
    end_deeper(laid, stack, place)?;
    if let Some(column) = stack.column()
        && column == place.column
    {
        add(laid, place, Mark::Semicolon)?;
    }
    Ok(())
}

/// Ends the lists inside the innermost bracket.
fn end_inside(laid: &mut Vec<Token>, stack: &mut Stack, place: Place) -> Result<(), NoMemory>
    ensures added { OnOk result (laid.new.items ≡ laid.old.items
        ++ map (spec.mark_at place) (spec.end_inside stack.old).0) }
    ensures open { OnOk result (stack.new ≡ (spec.end_inside stack.old).1) }
{
    while let Some(_) = stack.column() {
        add(laid, place, Mark::CloseBrace)?;
        stack.pop();
    }
    Ok(())
}

/// What a bracket or a comma does.
fn bracket(
    laid: &mut Vec<Token>,
    stack: &mut Stack,
    place: Place,
    role: Role,
) -> Result<(), NoMemory>
    ensures added { OnOk result (laid.new.items ≡ laid.old.items
        ++ map (spec.mark_at place) (spec.bracket role stack.old).0) }
    ensures open { OnOk result (stack.new ≡ (spec.bracket role stack.old).1) }
{
    match role {
        Role::Opens => stack.push_bracket(),
        Role::Closes => {
            if stack.has_bracket() {
                end_inside(laid, stack, place)?;
                stack.pop();
            }
            Ok(())
        }
        Role::Separates => {
            if stack.has_bracket() {
                end_inside(laid, stack, place)?;
            }
            Ok(())
        }
        Role::Stands => Ok(()),
    }
}

/// Adds what stands before a token.
fn before(
    laid: &mut Vec<Token>,
    stack: &mut Stack,
    last: Option<Last>,
    token: &Token,
) -> Result<(), NoMemory>
    ensures added { OnOk result (laid.new.items ≡ laid.old.items
        ++ map (spec.mark_at (spec.begin_of token.now)) (spec.before last token.now stack.old).0) }
    ensures open { OnOk result (stack.new ≡ (spec.before last token.now stack.old).1) }
{
    let place = begin_of(token);
    let begins = list_begins(last, &token.kind);
    let follows = is_first(last, token.line) && !(begins && !stack.reaches(token.col));
    rule_one(laid, stack, place, begins)?;
    rule_two(laid, stack, place, follows)?;
    bracket(laid, stack, place, role_of(&token.kind))
}

/// The first rule, for a token at which a list may begin.
fn rule_one(
    laid: &mut Vec<Token>,
    stack: &mut Stack,
    place: Place,
    begins: bool,
) -> Result<(), NoMemory>
    ensures added { OnOk result (laid.new.items ≡ laid.old.items
        ++ map (spec.mark_at place) (spec.rule_one begins place.column stack.old).0) }
    ensures open { OnOk result (stack.new ≡ (spec.rule_one begins place.column stack.old).1) }
{
    if begins {
        begin_list(laid, stack, place)
    } else {
        Ok(())
    }
}

/// The second rule, where it follows.
fn rule_two(
    laid: &mut Vec<Token>,
    stack: &mut Stack,
    place: Place,
    follows: bool,
) -> Result<(), NoMemory>
    ensures added { OnOk result (laid.new.items ≡ laid.old.items
        ++ map (spec.mark_at place) (spec.rule_two follows place.column stack.old).0) }
    ensures open { OnOk result (stack.new ≡ (spec.rule_two follows place.column stack.old).1) }
{
    if follows {
        begin_line(laid, stack, place)
    } else {
        Ok(())
    }
}

/// Ends all lists at a place.
fn end_all(laid: &mut Vec<Token>, stack: &mut Stack, place: Place) -> Result<(), NoMemory>
    ensures { OnOk result (laid.new.items ≡ laid.old.items ++ map (spec.mark_at place) (spec.end_all stack.old)) }
{
    while let Some(open) = stack.innermost() {
        if let Open::Items(_) = open {
            add(laid, place, Mark::CloseBrace)?;
        }
        stack.pop();
    }
    Ok(())
}

/// Adds what stands behind the last token.
fn at_end(laid: &mut Vec<Token>, stack: &mut Stack, last: Option<Last>) -> Result<(), NoMemory>
    ensures { OnOk result (laid.new.items ≡ laid.old.items ++ spec.at_end last stack.old) }
{
    if let Some(last) = last {
        if last.begins_items {
            add(laid, last.end, Mark::OpenBrace)?;
            add(laid, last.end, Mark::CloseBrace)?;
        }
        end_all(laid, stack, last.end)?;
    }
    Ok(())
}

/// The tokens with the braces and semicolons that the columns of their lists of items stand for.
/// A mark that is added has no bytes: it stands where the token behind it begins, and at the end
/// where the last token ends.
pub fn layout(alloc: Global, tokens: Vec<Token>) -> Result<Vec<Token>, NoMemory>
    ensures { IfOk result (λ laid. laid.items ≡ spec.lay None [] tokens.items) }
{
    let mut laid = Vec::new(alloc);
    let mut stack = Stack::new(alloc);
    let mut last = None;
    let mut rest = tokens.into_iter();
    while let Some(token) = rest.next() {
        before(&mut laid, &mut stack, last, &token)?;
        last = Some(last_of(&token));
        laid.push(token)?;
    }
    at_end(&mut laid, &mut stack, last)?;
    Ok(laid)
}
