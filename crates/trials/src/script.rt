// A script of trials. The first letter of a line says what it asks for; any other line is a comment.
//
//     table WORDS                  a table begins
//     repeat ROWS WORDS            so many rows of words that it goes on with
//     pattern NAME:                checks the table as a pattern
//     build NAME: WORDS SETS       builds its complement in so many table words and so many words of records
//     lasso NAME: WORK LASSO       decides a lasso over it in so many work words
//     complement NAME: WORK LASSO  decides a lasso over its complement
//     many NAME: WORK BYTES COUNT WORDS
//                                  decides each lasso of a list of COUNT words, which are these and then zeros, in so many work
//                                  words and so many answer bytes
//     join NAME: SIZE LENT FROM    merges the pattern of the table's first SIZE words with that of the others in so many lent words,
//                                  of which those from a place on are printed; the merged pattern is the table from then on
//
// Each of the last six prints its name and the answer. A part that a line lacks is looked for in the lines behind it.
use crate::answers::{Built, Check};
use crate::filling::{Table, put_row, put_rows};
use crate::lasso::decide;
use crate::pair::join;
use crate::scan::{behind, divided, numbers};
use crate::tray::decide_many;
use complement::{Counts, build_complement};
use patterns::check_pattern;
use std::io;
use tables::table_words;

// What a line asks for.
#[derive(Clone, Copy)]
enum Command {
    Table,
    Repeat,
    Pattern,
    Build,
    Lasso,
    Complement,
    Many,
    Join,
}

// A line that asks for nothing.
#[derive(Clone, Copy)]
struct Comment;

impl TryFrom<u8> for Command {
    type Error = Comment;

    fn try_from(letter: u8) -> Result<Command, Comment> {
        match letter {
            b't' => Ok(Command::Table),
            b'r' => Ok(Command::Repeat),
            b'p' => Ok(Command::Pattern),
            b'b' => Ok(Command::Build),
            b'l' => Ok(Command::Lasso),
            b'c' => Ok(Command::Complement),
            b'm' => Ok(Command::Many),
            b'j' => Ok(Command::Join),
            _ => Err(Comment),
        }
    }
}

// Builds in so many table words and so many words of records, at most 64 of each.
fn build(rt: &impl Print, table: &[u16], text: &[u8]) -> io::Result<()> {
    let [length, room] = numbers::<2>(text);
    let mut words = [7u16; 64];
    let mut sets = [7u32; 64];
    let (Some(words), Some(sets)) = (words.get_mut(..length), sets.get_mut(..room)) else {
        return Ok(());
    };
    println!(rt; ": {}", Built(build_complement(table, words, sets)))
}

// A complement that is refused has no states and no edges, as C gets it, so a lasso over it is refused too.
fn decide_over_complement(rt: &impl Print, table: &[u16], text: &[u8]) -> io::Result<()> {
    let mut words = [7u16; 64];
    let mut sets = [7u32; 64];
    let counts = Counts::from(build_complement(table, &mut words, &mut sets));
    let used = table_words(counts.states as usize, counts.edges as usize);
    match words.get(..used) {
        Some(complement) => decide(rt, complement, text),
        None => Ok(()),
    }
}

// Prints the name of a trial and not the colon behind it, and answers what is given behind that.
fn named<'a>(rt: &impl Print, text: &'a [u8]) -> io::Result<&'a [u8]> {
    let (name, given) = divided(behind(text, b' '), b':');
    if let Some((_colon, name)) = name.split_last() {
        rt.write_all(name)?;
    }
    Ok(behind(given, b' '))
}

// Does what the line asks that a text begins with. A `match`, and no table of functions: each command is given other parts of the line.
fn obey(rt: &impl Print, command: Command, text: &[u8], table: &mut Table) -> io::Result<()> {
    let (line, _) = divided(text, b'\n');
    match command {
        Command::Table => {
            table.clear();
            put_row(table, line, 1, 0);
            Ok(())
        }
        Command::Repeat => {
            put_rows(table, line);
            Ok(())
        }
        Command::Pattern => {
            named(rt, text)?;
            println!(rt; ": {}", Check(check_pattern(table.as_slice())))
        }
        Command::Build => build(rt, table.as_slice(), named(rt, text)?),
        Command::Lasso => decide(rt, table.as_slice(), named(rt, text)?),
        Command::Complement => decide_over_complement(rt, table.as_slice(), named(rt, text)?),
        Command::Many => decide_many(rt, table.as_slice(), named(rt, text)?),
        Command::Join => join(rt, table, named(rt, text)?),
    }
}

pub(crate) fn run(rt: &impl Print, text: &[u8], table: &mut Table) -> io::Result<()> {
    let mut left = text;
    while let [letter, ..] = left {
        if let Ok(command) = Command::try_from(*letter) {
            obey(rt, command, left, table)?;
        }
        left = behind(left, b'\n');
    }
    Ok(())
}
