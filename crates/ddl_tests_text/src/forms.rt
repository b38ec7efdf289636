/// A module that has every production, a declaration a line, as `show` writes it.
pub(crate) const EVERY_FORM: &str = "import B\n\
import Cc_1\n\
def G x Y $c ( z : uint 8 ) ( W : [ int ] ) : maybe { } = block { $$ = UInt8 ; let y = 1 ; w = 2 ; ^ x }\n\
def f ( a : [ int -> sint 4 ] ) ( b : ( bool ) ) : stream = a\n\
def g ( c : float ) ( d : double ) ( e : B ) = c\n\
def $d = 'a' | 0x0a .. '\\xff' | $c | ! 0b1 | ( 1 | ! ! 2 ) | $[ 3 ]\n\
bitdata D = { 0b01 , a : uint 2 , _ : D , 0xff }\n\
bitdata E where { a = 0b0 ; b = { c : uint 1 } }\n\
def H = A | B | C <| D <| ^ a\n\
def I = if a then b else for ( s = 0 ; k , v in m ) s + v\n\
def J = map ( x in xs ) x is just\n\
def K = a is true | a is false | a is nothing | a is tag\n\
def l = a || b && c == d .|. e .^. f .&. g << 1 >> 2 # h <# i + j - k * m / n % o\n\
def m = a != b\n\
def n = a < b\n\
def o = a <= b\n\
def p = a > b\n\
def q = a >= b\n\
def r = - ! ~ a as int as! bool\n\
def S = a as? uint 8\n\
def T = Many A | Many ( 1 .. 2 ) A | Many ( .. 2 ) A | Many ( 1 .. ) A | Many? 3 A | Optional A | Optional? A\n\
def u = just a . x . y\n\
def v = f a . x b\n\
def V = P $c $[ 1 ] ( A ) \"t\\\"\\\\\\x0a\" 'c' true false nothing\n\
def w = [ ]\n\
def x = [ 1 , 2 ]\n\
def y = { }\n\
def z = { a = 1 , b = ( 2 : uint 8 ) }\n\
def aa = {| a |}\n\
def bb = {| a = 0x00ff |}\n\
def CC = First { a = A ; b = B }\n\
def DD = Choose { A ; B }\n\
def ee = case a of { _ -> 1 ; 2 -> 3 ; 'c' -> 4 ; true -> 5 ; false -> 6 ; nothing -> 7 ; just x -> 8 ; just _ -> 9 ; t -> 0 ; t y -> 0 ; t _ -> 0 }\n";
