// Plans the sheet on standard input in halves: the report headed `plan`, or the line of its refusal.
#![tactic(auto)]

use std::process::ExitCode;

fn main(rt: HostRuntime) -> ExitCode {
    let went = report_program::run(&mut rt.stdin(), &mut rt.stdout(), &mut rt.stderr(), false);
    text_streams::status(went)
}
