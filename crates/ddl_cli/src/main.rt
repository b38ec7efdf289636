//! The program: does what its arguments say, and ends with the status of that.
#![tactic(auto)]

use ddl_outside::{HostFiles, HostOut};
use ddl_top::{Status, run};
use std::env::Env;
use std::process::ExitCode;
use std::{env, io};

/// The arguments without the program's name, or none where one of them is no UTF-8: those are no words of the program.
fn words(rt: &(impl Env + AllocGlobal)) -> io::Result<Vec<String>> {
    let mut words = Vec::new(rt.alloc());
    if let Ok(args) = env::args(rt) {
        for word in args.skip(1) {
            words.push(word)?;
        }
    }
    Ok(words)
}

fn main(rt: HostRuntime) -> ExitCode {
    let status = match words(&rt) {
        Ok(words) => {
            let mut files = HostFiles::new(rt.alloc(), &rt);
            let mut out = HostOut::new(io::writer(&rt));
            run(rt.alloc(), &words, &mut files, &mut out)
        }
        Err(_) => Status::NoMemory,
    };
    ExitCode::from(status.number())
}
