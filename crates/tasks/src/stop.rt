// What a task stops at.
use entries::Refusal;
use std::io;
use std::str::Utf8Error;
use thiserror::Error;

// A stream that takes no more, a call that was refused, or a log that is no text. A program that stops prints which.
#[derive(Debug, Drop, Error)]
pub enum Stop {
    #[error(transparent)]
    Stream(#[from] io::Error),
    #[error(transparent)]
    Refused(#[from] Refusal),
    #[error(transparent)]
    NoText(#[from] Utf8Error),
}

pub type Result<T, E = Stop> = std::result::Result<T, E>;
