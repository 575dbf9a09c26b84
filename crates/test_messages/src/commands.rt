//! How a command is printed: its name, its numbers and its texts.
use house_rows::{Command, Rating, Text};
use std::alloc::AllocError;
use std::fmt::Write;

/// Adds a command: its name, with the rating of feedback, its numbers, the rows of a band table and
/// then its texts, in the order in which they are in `Command`, but for the price at which a
/// listing may be bought, which comes last of the numbers, and its reserve, which comes after them
/// with its word.
pub(crate) fn push(line: &mut String, command: &Command) -> Result<(), AllocError> {
    line.push_str(name(command))?;
    for number in numbers(command).iter().flatten() {
        write!(line, " {number}")?;
    }
    if let Command::List {
        reserve: Some(reserve),
        ..
    } = command
    {
        write!(line, " reserve {reserve}")?;
    }
    if let Command::SetBands { bands } = command {
        for (at, step) in bands.as_slice() {
            write!(line, " {at} {step}")?;
        }
    }
    for text in texts(command).iter().flatten() {
        write!(line, " {:?}", text.as_str())?;
    }
    Ok(())
}

fn name(command: &Command) -> &'static str {
    match command {
        Command::Register { .. } => "Register",
        Command::AddCategory { .. } => "AddCategory",
        Command::List { .. } => "List",
        Command::Bid { .. } => "Bid",
        Command::Buy { .. } => "Buy",
        Command::Close => "Close",
        Command::Settle { .. } => "Settle",
        Command::Watch { .. } => "Watch",
        Command::Unwatch { .. } => "Unwatch",
        Command::Ask { .. } => "Ask",
        Command::Answer { .. } => "Answer",
        Command::Feedback { rating, .. } => feedback(*rating),
        Command::SetBands { .. } => "SetBands",
    }
}

fn feedback(rating: Option<Rating>) -> &'static str {
    match rating {
        Some(Rating::Minus) => "Feedback Minus",
        Some(Rating::Zero) => "Feedback Zero",
        Some(Rating::Plus) => "Feedback Plus",
        None => "Feedback None",
    }
}

fn numbers(command: &Command) -> [Option<u64>; 4] {
    match command {
        Command::List {
            category,
            start,
            end,
            buy_now,
            ..
        } => [Some(*category), Some(*start), Some(*end), *buy_now],
        Command::Bid { item, maximum } => [Some(*item), Some(*maximum), None, None],
        Command::Answer {
            item,
            asker,
            number,
            ..
        } => [Some(*item), Some(*asker), Some(*number), None],
        Command::Buy { item }
        | Command::Settle { item }
        | Command::Watch { item }
        | Command::Unwatch { item }
        | Command::Ask { item, .. }
        | Command::Feedback { item, .. } => [Some(*item), None, None, None],
        Command::Register { .. }
        | Command::AddCategory { .. }
        | Command::Close
        | Command::SetBands { .. } => [None; 4],
    }
}

fn texts(command: &Command) -> [Option<&Text>; 3] {
    match command {
        Command::List {
            lot,
            title,
            text,
            ..
        } => [Some(lot), Some(title), Some(text)],
        Command::Register { name } | Command::AddCategory { name } => [Some(name), None, None],
        Command::Ask { text, .. } | Command::Answer { text, .. } | Command::Feedback { text, .. } =>
            [Some(text), None, None],
        _ => [None; 3],
    }
}
