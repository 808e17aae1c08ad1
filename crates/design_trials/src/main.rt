// Designs with known outcome: plot designs, then full ones.
#![tactic(auto)]

mod full;
mod plots;
mod show;

use std::io;

fn main(rt: HostRuntime) -> io::Result<()> {
    plots::marked(&rt)?;
    plots::crossed(&rt)?;
    plots::odd(&rt)?;
    plots::large(&rt)?;
    full::halves(&rt)?;
    full::crossed(&rt)?;
    full::trees(&rt)?;
    full::subjects(&rt)?;
    full::benches(&rt)?;
    full::square(&rt)?;
    full::extended_square(&rt)
}
