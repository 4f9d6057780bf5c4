// What is asked of a device, and the numbers that it answers.
ghost use Rattle.std.specs.Prelude.{◌≡◌, ◌++◌, [], Some, codes};
ghost use Rattle.std.specs.Fmt.{decimal};
ghost use Rattle.class.specs.Kinds.{asked};

use std::fmt;

// A code that says what to do, a place where to do it, and the bytes to do it with. What they mean is the class's, so the code
// is a number: a class carries codes that it has no name for.
#[derive(Clone, Copy)]
pub struct Request<'p> {
    pub code: u32,
    pub place: u64,
    pub payload: &'p [u8],
}

impl Request<'static> {
    // A request that carries no bytes.
    pub const fn bare(code: u32, place: u64) -> Request<'static>
        ensures no_bytes { asked result ≡ record { code = code; place = place; payload = [] } }
    {
        Request {
            code,
            place,
            payload: &[],
        }
    }
}

// How a request ended, by the class's own number, and how many bytes the device says it wrote into the writable segments.
#[derive(Clone, Copy, PartialEq, Eq, Debug)]
pub struct Reply {
    pub status: u8,
    pub written: u32,
}

impl fmt::Display for Reply {
    ghost output = { λ r. Some (codes "status " ++ (decimal r.status ++ (codes ", written " ++ decimal r.written))) };

    fn fmt<W: fmt::Write>(&self, f: &mut fmt::Formatter<W>) -> fmt::Result {
        write!(f, "status {}, written {}", self.status, self.written)
    }
}
