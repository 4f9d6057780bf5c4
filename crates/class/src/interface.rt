// What a class of request is to the code above it.
ghost use Rattle.std.specs.Prelude.{◌≡◌, ℕ, Ok, Err};
ghost use Rattle.class.specs.Kinds.{Kind, asked};
ghost use Rattle.class.specs.Rules.{laid, served, status_of, data_of};
ghost use Rattle.class.specs.Laws.{Lawful};

use crate::requests::Request;
use entries::{Entry, Refusal};

pub trait Class {
    // The most segments of an entry, and the least bytes of a store.
    const LONGEST_CHAIN: usize;

    const LEAST_STORE: usize;

    ghost LONGEST_CHAIN: { ℕ };

    ghost LEAST_STORE: { ℕ };

    // What the class means.
    ghost kind: { Kind };

    // Whether the class does not carry a request, whatever its tag and its cell.
    fn refuses(request: Request<'_>) -> bool
        ensures by_the_request_alone { result ≡ kind.refuses (asked request.entry) };

    // Lays a request in the cell of its tag, and gives the entry that hands it to the device.
    fn lay(tag: u16, request: Request<'_>, cell: &mut [u8]) -> Result<Entry, Refusal>
        ensures answer { result ≡ (laid kind tag (asked request.entry) cell.old).answer }
        ensures later_cell { cell.new ≡ (laid kind tag (asked request.entry) cell.old).cell };

    // Serves an entry in the cell of its tag, and gives the written length.
    fn serve(entry: &Entry, cell: &mut [u8], store: &mut [u8]) -> Result<u32, Refusal>
        ensures answer { result ≡ (served kind entry.now cell.old store.old).answer }
        ensures later_cell { cell.new ≡ (served kind entry.now cell.old store.old).cell }
        ensures later_store { store.new ≡ (served kind entry.now cell.old store.old).store };

    fn status(cell: &[u8]) -> Result<u8, Refusal>
        ensures answer { result ≡ status_of kind cell.now };

    // The data of the answer, where it lies in the cell.
    fn data<'c>(cell: &'c [u8]) -> Result<&'c [u8], Refusal>
        ensures answer { elim result [ Ok part ↦ Ok part.now ≡ data_of kind cell.now | Err n ↦ Err n ≡ data_of kind cell.now ] };

    // The two constants are what the class means by them.
    ghost longest_as_meant: { LONGEST_CHAIN ≡ kind.longest };

    ghost least_as_meant: { LEAST_STORE ≡ kind.least };

    // A request laid and then served is the plain service's.
    ghost lawful: { Lawful kind };
}
