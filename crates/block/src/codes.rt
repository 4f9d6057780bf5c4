// The numbers of the block class, and the requests that it does not carry.
ghost use Rattle.std.specs.Prelude.{◌≡◌};
ghost use Rattle.class.specs.Kinds.{asked};
ghost use Rattle.block.specs.Requests.{refused};
ghost use Rattle.block.specs.Codes.{operation, code, number};

use class::Request;

pub const SECTOR_SIZE: usize = 512;

// What a request asks for. Any other code is carried too, and answered as unsupported.
#[derive(Clone, Copy, PartialEq, Eq, Debug)]
pub enum Operation {
    Read = 0,
    Write = 1,
    Flush = 4,
}

// How a request ended.
#[derive(Clone, Copy, PartialEq, Eq, Debug)]
pub enum Status {
    Ok = 0,
    IoError = 1,
    Unsupported = 2,
}

// What the status byte holds until the device writes it.
pub(crate) const NOT_SERVED: u8 = 255;

impl From<Operation> for u32 {
    ghost from_gives = { λ o n. n ≡ code o };

    fn from(operation: Operation) -> u32 {
        operation as u32
    }
}

impl TryFrom<u32> for Operation {
    type Error = Status;

    ghost try_from_gives = { λ n r. r ≡ operation n };

    fn try_from(code: u32) -> Result<Operation, Status> {
        match code {
            0 => Ok(Operation::Read),
            1 => Ok(Operation::Write),
            4 => Ok(Operation::Flush),
            _ => Err(Status::Unsupported),
        }
    }
}

impl From<Status> for u8 {
    ghost from_gives = { λ s n. n ≡ number s };

    fn from(status: Status) -> u8 {
        status as u8
    }
}

// A write has one sector of payload, anything else none, and a flush names no place.
pub(crate) fn is_refused(request: Request<'_>) -> bool
    ensures by_the_request_alone { result ≡ refused (asked request.entry) }
{
    match Operation::try_from(request.code) {
        Ok(Operation::Write) => request.payload.len() != SECTOR_SIZE,
        Ok(Operation::Flush) => !request.payload.is_empty() || request.place != 0,
        _ => !request.payload.is_empty(),
    }
}
