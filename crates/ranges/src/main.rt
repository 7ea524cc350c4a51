// Tells the span of the range sheet on standard input: the report headed `span`, or the line of its refusal.
#![tactic(auto)]

use std::process::ExitCode;

fn main(rt: HostRuntime) -> ExitCode {
    let went = report_program::span(&mut rt.stdin(), &mut rt.stdout(), &mut rt.stderr());
    text_streams::status(went)
}
