// Commands as the bytes that the house takes.
ghost use Rattle.std.specs.Prelude.{◌≡◌, ◌++◌, OnOk};
ghost use Rattle.records.specs.Command.{event_spelled, repeat_spelled, spelled, zone_spelled};
ghost use Rattle.station.specs.Said.{command_of, event_of, repeat_of, zone_of};

use crate::command::{Command, Event, Repeat};
use dates::zone::Zone;
use host::spell::{put_code, put_eight, put_eights, put_numbers, put_text};
use std::alloc::AllocError;

pub fn put_zone(out: &mut Vec<u8>, zone: &Zone) -> Result<(), AllocError>
    ensures { OnOk result (out.new.items ≡ out.old.items ++ zone_spelled (zone_of zone.now)) }
{
    put_eight(out, zone.east)?;
    put_eight(out, zone.extra)?;
    out.push(zone.begins.month)?;
    out.push(zone.begins.week)?;
    out.push(zone.ends.month)?;
    out.push(zone.ends.week)?;
    put_eight(out, zone.minute)?;
    Ok(())
}

pub fn put_repeat(out: &mut Vec<u8>, repeat: &Repeat) -> Result<(), AllocError>
    ensures { OnOk result (out.new.items ≡ out.old.items ++ repeat_spelled (repeat_of repeat.now)) }
{
    out.push(u8::from(repeat.kind))?;
    put_eight(out, repeat.step)?;
    put_numbers(out, repeat.weekdays.as_slice())?;
    put_eight(out, repeat.times)?;
    put_eight(out, repeat.last)?;
    Ok(())
}

// records' writer fills a row of fixed length; this one writes behind what stands there.
pub fn put_event(out: &mut Vec<u8>, event: &Event) -> Result<(), AllocError>
    ensures { OnOk result (out.new.items ≡ out.old.items ++ event_spelled (event_of event.now)) }
{
    put_text(out, event.title.as_slice())?;
    out.push(event.zone)?;
    put_eight(out, event.first)?;
    put_eight(out, event.minute)?;
    put_eight(out, event.long)?;
    out.push(u8::from(event.busy))?;
    put_repeat(out, &event.repeat)?;
    put_numbers(out, event.left_out.as_slice())?;
    Ok(())
}

// Commands have these numbers outside.
pub fn put_command(out: &mut Vec<u8>, command: &Command) -> Result<(), AllocError>
    ensures { OnOk result (out.new.items ≡ out.old.items ++ spelled (command_of command.now)) }
{
    match command {
        Command::Join { name } => {
            put_code(out, 1, &[])?;
            put_text(out, name.as_slice())?;
        }
        Command::Zone { number, zone } => {
            put_code(out, 2, &[])?;
            out.push(*number)?;
            put_zone(out, zone)?;
        }
        Command::Put { person, event } => {
            put_code(out, 3, &[*person])?;
            put_event(out, event)?;
        }
        Command::Change {
            person,
            number,
            event,
        } => {
            put_code(out, 4, &[*person, *number])?;
            put_event(out, event)?;
        }
        Command::DropEvent { person, number } => put_code(out, 5, &[*person, *number])?,
        Command::Skip {
            person,
            number,
            day,
        } => put_code(out, 6, &[*person, *number, *day])?,
        Command::List { person, stretch } => {
            put_code(out, 7, &[*person, stretch.from, stretch.to])?
        }
        Command::Busy { people, stretch } => {
            put_code(out, 8, &[])?;
            put_numbers(out, people.as_slice())?;
            put_eights(out, &[stretch.from, stretch.to])?;
        }
        Command::Free {
            people,
            long,
            stretch,
        } => {
            put_code(out, 9, &[])?;
            put_numbers(out, people.as_slice())?;
            put_eights(out, &[*long, stretch.from, stretch.to])?;
        }
        Command::Next { person, from } => put_code(out, 10, &[*person, *from])?,
        Command::Shown { person, number } => put_code(out, 11, &[*person, *number])?,
    }
    Ok(())
}
