// Answers of one number packed into one u64. A refusal's number is in the top byte, 0 where there is none.
ghost use Rattle.std.specs.Prelude.{◌≡◌};
ghost use Rattle.refusal.specs.Named.{number};
ghost use Rattle.capi.specs.Packed.{packed_refusal, packed_book, packed_fit, packed_table, packed_replay, packed_opened};

use basis::Degree;
use book::Book;
use frame::Cursor;
use refusal::Refusal;

// A refusal's number, in bits 56 to 63.
pub fn refused(refusal: Refusal) -> u64
    ensures { result ≡ packed_refusal (number refusal) }
{
    u64::from(u8::from(refusal)) * 0x100_0000_0000_0000
}

// A book: its count.
pub fn book(answer: Result<Book, Refusal>) -> u64
    ensures { result ≡ packed_book answer }
{
    match answer {
        Ok(b) => b.count as u64,
        Err(r) => refused(r),
    }
}

// A fit or a validation: its degree.
pub fn fit(answer: Result<Degree, Refusal>) -> u64
    ensures { result ≡ packed_fit answer }
{
    match answer {
        Ok(d) => d.0 as u64,
        Err(r) => refused(r),
    }
}

// A table that was started or renewed: 0.
pub fn table(answer: Result<(), Refusal>) -> u64
    ensures { result ≡ packed_table answer }
{
    match answer {
        Ok(()) => 0,
        Err(r) => refused(r),
    }
}

// A replay: the book's count; 255 in the top byte, which refuses no call, where the buffers hold no list of calls.
pub fn replay(answer: Option<Book>) -> u64
    ensures { result ≡ packed_replay answer }
{
    match answer {
        Some(book) => book.count as u64,
        None => 0xFF00_0000_0000_0000,
    }
}

// A reader: its offset.
pub fn opened(answer: Result<Cursor, Refusal>) -> u64
    ensures { result ≡ packed_opened answer }
{
    match answer {
        Ok(c) => c.at as u64,
        Err(r) => refused(r),
    }
}
