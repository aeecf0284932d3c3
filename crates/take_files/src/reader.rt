//! An order that is read in chunks.

ghost use Rattle.std.specs.Prelude.{ℕ, List, ◌≡◌, ◌≢◌, ◌≤◌, ◌↔◌, [], ◌∷◌, ◌++◌, Err, IfOk, MatchResult, OnOk, length};
ghost use Rattle.take_files.specs.declared.read.OrderKind.{OrderKind};
ghost use Rattle.take_files.specs.declared.read.OrderFault.TheVariants.{Refused, Memory};
ghost use Rattle.take_files.specs.Orders.{IsOrder, IsRefused, OrderData};
ghost use Rattle.take_files.specs.Chunks.{Clean, Faulty, HasFed, IsSeen, IsSettled, OutOfMemory, answer, line_feeds};
ghost use Rattle.take_files.specs.OrderSoFar.{AreRead, IsListing, lines_read, listed, next_number, text_of};

use crate::entry_line::read_entry;
use crate::header::read_header;
use crate::listing::Listing;
use crate::read::{Order, OrderFault, OrderKind};
use command_set::TextFault;
use plain_text::{LineText, split_once};
use std::alloc::{AllocError, Global};
use std::marker::Model;

/// Reads an order that comes in chunks, cut at any bytes. It holds the entries of the lines that have ended, and the
/// part of a line that hasn't, which is at most 8256 bytes. Contracts see how it stands.
#[derive(Drop)]
pub struct OrderReader {
    /// None before the first line.
    listing: Option<Listing>,
    /// The bytes after the last line feed.
    line: Box<LineText>,
    /// Why it reads no more.
    fault: Option<OrderFault>,
}

impl Model for OrderReader {
    ghost use Rattle.take_files.specs.Chunks.{Standing};
    ghost use Rattle.take_files.specs.OrderSoFar.{IsReading, standing};

    ghost Value = { Standing };

    ghost view = { λ s. standing s.fault s.listing s.line.value.items };

    ghost invariant = { λ s. IsReading s.fault s.listing s.line.value.items };
}

impl OrderReader {
    /// A reader that was fed nothing.
    pub fn new(alloc: Global) -> Result<OrderReader, AllocError>
        ensures empty { IfOk result (λ r. r ≡ Clean []) }
        ensures fed { IfOk result (λ r. HasFed r []) }
    {
        Ok(OrderReader {
            listing: None,
            line: Box::new(alloc, LineText::new())?,
            fault: None,
        })
    }

    /// Reads the next bytes.
    ///
    /// `Refused` comes exactly where the first line with a fault has ended in the bytes so far, or has more than 8256 bytes
    /// so far. After an error each later call answers the same.
    pub fn feed(&mut self, alloc: Global, bytes: &[u8]) -> Result<(), OrderFault>
        ensures fed { (fed : List ℕ) → HasFed self.old fed → HasFed self.new (fed ++ bytes.now) }
        ensures answer { result ≡ answer self.new }
        ensures settled { IsSettled self.old → self.new ≡ self.old }
    {
        if let Some(fault) = self.fault {
            return Err(fault);
        }
        match read_lines(alloc, &mut self.listing, &mut self.line, bytes) {
            Ok(()) => Ok(()),
            Err(fault) => {
                self.fault = Some(fault);
                Err(fault)
            }
        }
    }

    /// The order that all bytes so far are, else their first fault, in whatever chunks they came.
    pub fn finish(self) -> Result<Order, OrderFault>
        ensures order { (fed : List ℕ) → HasFed self fed → IfOk result (λ o. IsOrder fed o) }
        ensures refused { (fed : List ℕ) (line : ℕ) (kind : OrderKind) → HasFed self fed → result ≡ Err (Refused line kind)
            → IsRefused fed line kind }
        ensures exact { (fed : List ℕ) (o : OrderData) → HasFed self fed → IsOrder fed o
            → MatchResult result (λ r. r ≡ o) (λ why. why ≡ Memory) }
        ensures memory { (result ≡ Err Memory) ↔ (self ≡ OutOfMemory) }
        ensures same { (line : ℕ) (kind : OrderKind) → self ≡ Faulty line kind → result ≡ Err (Refused line kind) }
    {
        match self.fault {
            Some(fault) => Err(fault),
            None => finish_lines(self.listing, self.line.as_slice()),
        }
    }
}

/// The order that the lines so far are, where no part of one more came.
fn finish_lines(listing: Option<Listing>, line: &[u8]) -> Result<Order, OrderFault>
    requires listing { AreRead listing }
    requires line { line_feeds line.now ≡ 0 }
    ensures order { IfOk result (λ o. IsOrder (lines_read listing ++ line.now) o) }
    ensures refused { (at : ℕ) (kind : OrderKind) → result ≡ Err (Refused at kind)
        → IsRefused (lines_read listing ++ line.now) at kind }
    ensures memory { result ≢ Err Memory }
{
    match listing {
        None => Err(OrderFault::Refused {
            line: 1,
            kind: OrderKind::Line,
        }),
        Some(listing) => {
            if line.is_empty() {
                Ok(Order::from_listing(listing))
            } else {
                Err(OrderFault::Refused {
                    line: listing.next_line(),
                    kind: OrderKind::Line,
                })
            }
        }
    }
}

/// Reads the lines that end in the bytes, and keeps the part of a line after them.
fn read_lines(
    alloc: Global,
    listing: &mut Option<Listing>,
    line: &mut LineText,
    bytes: &[u8],
) -> Result<(), OrderFault>
    requires listing { AreRead listing.old }
    requires line { line_feeds line.old.items ≡ 0 }
    ensures listing { OnOk result (AreRead listing.new) }
    ensures line { OnOk result (line_feeds line.new.items ≡ 0) }
    ensures short { OnOk result (length line.new.items ≤ 8256) }
    ensures text { OnOk result (lines_read listing.new ++ line.new.items ≡ (lines_read listing.old ++ line.old.items) ++ bytes.now) }
    ensures refused { (at : ℕ) (kind : OrderKind) → result ≡ Err (Refused at kind)
        → IsSeen ((lines_read listing.old ++ line.old.items) ++ bytes.now) at kind }
{
    let mut rest = bytes;
    while let Some((end, after)) = split_once(rest, b'\n') {
        end_line(alloc, listing, line, end)?;
        rest = after;
    }
    keep(listing, line, rest)
}

/// Ends a line with these bytes, and reads it: where it lies, unless a part of it came before.
fn end_line(
    alloc: Global,
    listing: &mut Option<Listing>,
    line: &mut LineText,
    end: &[u8],
) -> Result<(), OrderFault>
    requires listing { AreRead listing.old }
    requires line { line_feeds line.old.items ≡ 0 }
    requires end { line_feeds end.now ≡ 0 }
    ensures listing { OnOk result (AreRead listing.new) }
    ensures line { OnOk result (line.new.items ≡ []) }
    ensures text { OnOk result (lines_read listing.new ≡ (lines_read listing.old ++ line.old.items) ++ (end.now ++ 10 ∷ [])) }
    ensures refused { (at : ℕ) (kind : OrderKind) → result ≡ Err (Refused at kind)
        → (more : List ℕ) → IsSeen ((lines_read listing.old ++ line.old.items) ++ (end.now ++ 10 ∷ more)) at kind }
{
    if line.is_empty() {
        return read_line(alloc, listing, end);
    }
    keep(listing, line, end)?;
    read_line(alloc, listing, line.as_slice())?;
    line.clear();
    Ok(())
}

/// Adds bytes to the part of a line that came before.
fn keep(listing: &Option<Listing>, line: &mut LineText, bytes: &[u8]) -> Result<(), OrderFault>
    requires listing { AreRead listing.now }
    requires line { line_feeds line.old.items ≡ 0 }
    requires bytes { line_feeds bytes.now ≡ 0 }
    ensures kept { OnOk result (line.new.items ≡ line.old.items ++ bytes.now) }
    ensures short { OnOk result (length line.new.items ≤ 8256) }
    ensures refused { (at : ℕ) (kind : OrderKind) → result ≡ Err (Refused at kind)
        → (more : List ℕ) → IsSeen ((lines_read listing.now ++ line.old.items) ++ (bytes.now ++ more)) at kind }
{
    match line.try_extend_from_slice(bytes) {
        Ok(()) => Ok(()),
        Err(_) => Err(OrderFault::Refused {
            line: next_line(listing),
            kind: OrderKind::Line,
        }),
    }
}

/// The number of the line after these, counted from 1.
fn next_line(listing: &Option<Listing>) -> u32
    requires { AreRead listing.now }
    ensures { result ≡ next_number listing.now }
{
    match listing {
        Some(listing) => listing.next_line(),
        None => 1,
    }
}

/// Reads the line after those that were read, without its line feed.
fn read_line(alloc: Global, listing: &mut Option<Listing>, line: &[u8]) -> Result<(), OrderFault>
    requires listing { AreRead listing.old }
    requires line { line_feeds line.now ≡ 0 }
    ensures listing { OnOk result (AreRead listing.new) }
    ensures text { OnOk result (lines_read listing.new ≡ lines_read listing.old ++ (line.now ++ 10 ∷ [])) }
    ensures refused { (at : ℕ) (kind : OrderKind) → result ≡ Err (Refused at kind)
        → (more : List ℕ) → IsSeen (lines_read listing.old ++ (line.now ++ 10 ∷ more)) at kind }
{
    match listing {
        Some(listing) => add_entry(alloc, listing, line),
        None => {
            *listing = Some(begin_listing(alloc, line)?);
            Ok(())
        }
    }
}

/// Reads the first line of an order, without its line feed.
fn begin_listing(alloc: Global, line: &[u8]) -> Result<Listing, OrderFault>
    requires { line_feeds line.now ≡ 0 }
    ensures listing { IfOk result (λ l. IsListing l) }
    ensures text { IfOk result (λ l. text_of (listed l) ≡ line.now ++ 10 ∷ []) }
    ensures refused { (at : ℕ) (kind : OrderKind) → result ≡ Err (Refused at kind)
        → (more : List ℕ) → IsSeen (line.now ++ 10 ∷ more) at kind }
{
    let Some((blocks, scripts)) = read_header(line) else {
        return Err(OrderFault::Refused {
            line: 1,
            kind: OrderKind::Line,
        });
    };
    match Listing::new(alloc, blocks, scripts) {
        Ok(listing) => Ok(listing),
        Err(_) => Err(OrderFault::Memory),
    }
}

/// Reads the line of an entry, without its line feed, and adds the entry.
fn add_entry(alloc: Global, listing: &mut Listing, line: &[u8]) -> Result<(), OrderFault>
    requires listing { IsListing listing.old }
    requires line { line_feeds line.now ≡ 0 }
    ensures listing { OnOk result (IsListing listing.new) }
    ensures text { OnOk result (text_of (listed listing.new) ≡ text_of (listed listing.old) ++ (line.now ++ 10 ∷ [])) }
    ensures refused { (at : ℕ) (kind : OrderKind) → result ≡ Err (Refused at kind)
        → (more : List ℕ) → IsSeen (text_of (listed listing.old) ++ (line.now ++ 10 ∷ more)) at kind }
{
    let number = listing.next_line();
    let logged = match read_entry(alloc, line) {
        Ok(logged) => logged,
        Err(TextFault::NotCommand) => {
            return Err(OrderFault::Refused {
                line: number,
                kind: OrderKind::Line,
            });
        }
        Err(TextFault::Memory) => return Err(OrderFault::Memory),
    };
    if let Some(kind) = listing.fault(&logged) {
        return Err(OrderFault::Refused { line: number, kind });
    }
    match listing.push(logged) {
        Ok(()) => Ok(()),
        Err(_) => Err(OrderFault::Memory),
    }
}
