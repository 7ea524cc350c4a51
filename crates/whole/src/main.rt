// Plans the sheet on standard input in whole circuits (document 02, Card 2): the report headed `whole`, or the line of its refusal.
#![tactic(auto)]

use std::process::ExitCode;

fn main(rt: HostRuntime) -> ExitCode {
    let went = report_program::run(&mut rt.stdin(), &mut rt.stdout(), &mut rt.stderr(), true);
    text_streams::status(went)
}
