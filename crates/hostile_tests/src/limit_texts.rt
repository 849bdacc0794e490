//! Texts of many like parts.

use std::alloc::{AllocError, Global};

/// A part of a text: how often it stands there, and its words, with a number from 0 on between each two.
pub(crate) type Part<'a> = (u32, &'a [&'a str]);

/// The words with this number between each two.
fn push_numbered(text: &mut String, number: &str, words: &[&str]) -> Result<(), AllocError> {
    for place in 0..words.len() {
        if place > 0 {
            text.push_str(number)?;
        }
        text.push_str(words[place])?;
    }
    Ok(())
}

fn push_part(text: &mut String, alloc: Global, part: Part<'_>) -> Result<(), AllocError> {
    for i in 0..part.0 {
        push_numbered(text, format!(in alloc; "{i}")?.as_str(), part.1)?;
    }
    Ok(())
}

/// The parts, one after the other.
pub(crate) fn text_of(alloc: Global, parts: &[Part<'_>]) -> Result<String, AllocError> {
    let mut text = String::new(alloc);
    for &part in parts {
        push_part(&mut text, alloc, part)?;
    }
    Ok(text)
}
