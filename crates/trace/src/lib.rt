//! Recordings of announcements: a reader of their lines, and the source of the quadlets behind a reset.
//!
//! A trace is lines, each ended by byte 10; the last may lack it. The line `reset` begins a reset. An empty line or one
//! that begins with `#` is a note. Any other line has to be words with one space between, each of eight hexadecimal digits.
//! A line of more than 255 bytes, without its byte 10, is too long whatever it holds.

#![tactic(auto)]

mod lines;
pub mod reader;
pub mod recorded;
pub mod token;
