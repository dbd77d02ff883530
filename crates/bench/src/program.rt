//! The commands of the program, and the printing of the rows.
use crate::fault::Fault;
use crate::figures::{Figure, Spread, Unit, spread_of};
use crate::measure::{Tenths, each_second};
use crate::rows::{Rows, all_rows};
use std::alloc::Global;
use std::rt::Clock;
use std::sync::Wait;
use std::thread::Threads;

fn print_usage<R: Print>(rt: &R) -> Result<(), Fault> {
    println!(rt;
        "usage: bench alone | pairs | fours | chains | rings | boots | replays | all"
    ).map_err(Fault::of_row)?;
    println!(rt;
        "prints a row for each figure: what is measured, the middle of 15 measurements, the least and the most, and the unit"
    ).map_err(Fault::of_row)
}

// Prints the row of a figure, which is so many tenths of a nanosecond for each thing done. The maximum of a rate is the
// rate at the shortest time.
fn print_figure<R: Print>(
    rt: &R,
    figure: &Figure,
    number: u8,
    spread: Spread,
) -> Result<(), Fault> {
    let name = figure.name;
    let Spread {
        shortest,
        middle,
        longest,
    } = spread;
    match figure.unit {
        Unit::Each(thing) => {
            println!(rt;
                "{name} {number} {} ({}-{}) ns/{thing}",
                Tenths(middle),
                Tenths(shortest),
                Tenths(longest),
            )
            .map_err(Fault::of_row)
        }
        Unit::Rate(things) => {
            let (rate, least, most) = (
                each_second(middle),
                each_second(longest),
                each_second(shortest),
            );
            println!(rt; "{name} {number} {rate} ({least}-{most}) {things}/s").map_err(
                Fault::of_row,
            )
        }
    }
}

// Measures each of these figures with this number, and prints its row.
fn print_figures<R: Threads + Wait + Clock + Print + Sync>(
    rt: &R,
    alloc: Global,
    figures: &[Figure],
    number: u8,
) -> Result<(), Fault> {
    for figure in figures {
        let spread = spread_of(rt, alloc, figure.task, number)?;
        print_figure(rt, figure, number, spread)?;
    }
    Ok(())
}

fn print_rows<R: Threads + Wait + Clock + Print + Sync>(
    rt: &R,
    alloc: Global,
    rows: &Rows,
) -> Result<(), Fault> {
    for number in rows.numbers {
        print_figures(rt, alloc, rows.figures, *number)?;
    }
    Ok(())
}

// Prints the rows that the word names, and returns whether there are any.
fn print_named<R: Threads + Wait + Clock + Print + Sync>(
    rt: &R,
    alloc: Global,
    word: &str,
) -> Result<bool, Fault> {
    let mut any = false;
    for rows in all_rows() {
        if word == "all" || word == rows.word {
            print_rows(rt, alloc, rows)?;
            any = true;
        }
    }
    Ok(any)
}

/// Measures and prints a row for each figure that the one word names. Without a word the commands are printed. With
/// other words they are printed too, and it is a fault.
pub fn run_command<R: Threads + Wait + Clock + Print + Sync>(
    rt: &R,
    alloc: Global,
    words: &[String],
) -> Result<(), Fault> {
    let is_known = match words {
        [word] => print_named(rt, alloc, word.as_str())?,
        _ => false,
    };
    if is_known {
        return Ok(());
    }
    print_usage(rt)?;
    if words.is_empty() {
        Ok(())
    } else {
        Err(Fault::Words)
    }
}
