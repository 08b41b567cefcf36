//! Writes the manual page of citymerge and its completions for bash, zsh and fish, made of its own
//! commands and help texts so that they cannot say something else. Before each stands a line
//! `==> NAME` with the name of its file.
#![tactic(auto)]

mod bash;
mod entries;
mod filling;
mod fish;
mod output;
mod page;
mod zsh;

use entries::entries;
use filling::add_sections;
use output::Output;
use std::io::{self, ErrorKind};

fn main(rt: HostRuntime) -> io::Result<()> {
    let entries = entries(rt.alloc())?;
    let mut out = Output::new(rt.alloc());
    add_sections(&mut out, page::SECTIONS, &[], &entries);
    add_sections(&mut out, bash::SECTIONS, &[], &entries);
    add_sections(&mut out, zsh::SECTIONS, zsh::ESCAPES, &entries);
    add_sections(&mut out, fish::SECTIONS, fish::ESCAPES, &entries);
    match out.into_text() {
        Some(text) => rt.print(&text),
        None => Err(ErrorKind::Other.into()),
    }
}
