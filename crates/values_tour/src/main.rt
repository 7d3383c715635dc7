//! Prints font sizes and lengths for cards of nested elements: each line of input is a card, its words the font sizes.
#![tactic(auto)]

mod card_of_line;
mod print;

use card_of_line::Room;
use print::print_card;
use std::io::Read;
use units::{Settings, check_settings};

// The settings of the lines before the first that gives others.
const FIRST: Settings = Settings {
    dpi: 96.0,
    size: 12.0,
    width: 100.0,
    height: 100.0,
    diagonal: 100.0,
};

// What a line of input is: new settings, or a card.
fn run_line(rt: &HostRuntime, settings: &mut Settings, line: &str) -> anyhow::Result<()> {
    if let Some(numbers) = line.strip_prefix("settings ") {
        return read_settings(rt, settings, numbers);
    }
    let mut room = Room::new();
    match room.build(line) {
        Ok(counts) => print_card(rt, room.tables(), counts, settings)?,
        Err(fault) => rt.println(fault)?,
    }
    Ok(())
}

// Replaces the settings by five numbers, if these may be settings.
fn read_settings(rt: &HostRuntime, settings: &mut Settings, numbers: &str) -> anyhow::Result<()> {
    let Some(read) = settings_of(numbers) else {
        rt.println("unreadable")?;
        return Ok(());
    };
    match check_settings(&read) {
        Ok(()) => *settings = read,
        Err(fault) => rt.println(fault)?,
    }
    Ok(())
}

// Five numbers as settings.
fn settings_of(numbers: &str) -> Option<Settings> {
    let mut words = numbers.split(' ');
    Some(Settings {
        dpi: words.next()?.parse().ok()?,
        size: words.next()?.parse().ok()?,
        width: words.next()?.parse().ok()?,
        height: words.next()?.parse().ok()?,
        diagonal: words.next()?.parse().ok()?,
    })
}

fn main(rt: HostRuntime) -> anyhow::Result<()> {
    let mut input = String::new(rt.alloc());
    rt.stdin().read_to_string(&mut input)?;
    let mut settings = FIRST;
    for line in input.as_str().lines() {
        if !line.is_empty() && !line.starts_with('#') {
            run_line(&rt, &mut settings, line)?;
        }
    }
    Ok(())
}
