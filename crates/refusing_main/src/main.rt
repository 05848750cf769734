//! The program again, for a run that is refused: its line and its status are stored beside it.
#![tactic(auto)]

use cal_base::Status;
use cal_fs::{DiskLibrary, OutSink, words};
use cal_top::run;
use std::process::ExitCode;

fn main(rt: HostRuntime) -> ExitCode {
    let mut files = DiskLibrary::new(&rt);
    let mut out = OutSink::new(&rt);
    let status = match words(&rt) {
        Ok(words) => run(rt.alloc(), words.as_slice(), &mut files, &mut out),
        Err(_) => Status::Memory,
    };
    ExitCode::from(status.number())
}
