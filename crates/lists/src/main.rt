// Prints docs/PATHS.md, docs/TERMS.md and docs/MESSAGES.md one after the other, with the numbers and
// texts of the crates `names` and `labels`.
#![tactic(auto)]

mod messages;
mod output;
mod paths;
mod terms;

use std::io;

fn main(rt: HostRuntime) -> io::Result<()> {
    paths::print_paths(&rt)?;
    terms::print_terms(&rt)?;
    messages::print_messages(&rt)
}
