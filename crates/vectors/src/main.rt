// Page 01's worked cases ('Run by a program and compared'), one line each. Where a line is about a
// refusal it shows what C is told: the refusal's number, and zeros for what was not handed out.
#![tactic(auto)]

mod bench;
mod failure;
mod hex;
mod nonces;
mod records;
mod settings;
mod sizes;
mod widths;
mod wrapping;

use failure::Failure;

fn main(rt: HostRuntime) -> Result<(), Failure> {
    records::shown(&rt)?;
    nonces::shown(&rt)?;
    sizes::largest(&rt)?;
    sizes::smallest(&rt)?;
    bench::settled_twice(&rt)?;
    widths::late_by_150(&rt)?;
    wrapping::inner(&rt)?;
    wrapping::outer(&rt)?;
    Ok(())
}
