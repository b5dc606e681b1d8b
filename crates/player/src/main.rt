// Plays a day with stops on two devices in memory: a script on standard input, an answer for each of its items.
#![tactic(auto)]

mod devices;
mod player;
mod run;
mod script;
mod sides;

use player::Player;
use std::io;
use std::io::{BufRead, BufReader, Write};

fn play(rt: &HostRuntime) -> io::Result<()> {
    let mut input = BufReader::new(rt.alloc(), rt.stdin())?;
    let mut output = rt.stdout();
    let mut player = Player::new(rt.alloc());
    let mut line = Vec::new(rt.alloc());
    // Counted, since a loop has to be seen to end; no input has so many lines.
    for _ in 0..u64::MAX {
        line.clear();
        if input.read_until(b'\n', &mut line)? == 0 {
            break;
        }
        output.write_all(player.answer(line.as_slice())?)?;
    }
    Ok(())
}

fn main(rt: HostRuntime) -> io::Result<()> {
    play(&rt)
}
