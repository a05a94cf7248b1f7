//! Shelves as text: lines that put blocks on volumes and damage them, and questions, which the catalog and the plan of a
//! restore answer. A line is echoed; what it is answered follows it, behind `= `, or behind `! ` why it can't be done, and
//! then it has changed nothing. `step` says what the lines are.
#![tactic(auto)]

mod answer;
mod block;
mod number;
mod shelf;
mod step;
mod trouble;
mod world;

use std::io;
use world::World;

fn main(rt: HostRuntime) -> io::Result<()> {
    let mut world = World::new(rt.alloc());
    for line in rt.lines(rt.alloc()) {
        let line = line?;
        match world.take(line.as_str()) {
            Ok(told) => print!(rt; "{line}\n{told}")?,
            Err(trouble) => println!(rt; "{line}\n! {trouble}")?,
        }
    }
    Ok(())
}
