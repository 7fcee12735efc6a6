ghost use Rattle.std.specs.Prelude.{◌≡◌, ◌<◌, ◌+◌, ◌^◌, ℕ, Option, decimal, codes, IfSome, IfNone};
ghost use Rattle.geo_rect.specs.declared.ids.KindId.{KindId};
ghost use Rattle.route_law.specs.declared.certs.Entry.{Entry};
ghost use Rattle.route_law.specs.declared.certs.Origin.{Origin};
ghost use Rattle.reply_reader.specs.declared.heads.CertHead.{CertHead};
ghost use Rattle.reply_reader.specs.Said.{cert_head, cert_head_words, IsBoundAt, IsCertHeadAt, entry_line, entry_words, origin_place, IsOriginOfAt, IsViaOriginAt, IsOriginAt, IsEntryRestAt, IsEntryAt};

use crate::fields::{area, cost, count, is_form, is_word, kind, layer};
use crate::heads::CertHead;
use crate::parts::Line;
use crate::words::Words;
use board_model::Board;
use route_law::{Entry, Origin};

/// The bound in a place, where a dash stands for none.
fn bound(words: &Words, place: usize) -> Option<Option<u128>>
    ensures some { IfSome result (λ o. IsBoundAt words.now place o) }
    ensures none { IfNone result ((o : Option ℕ) → IsBoundAt words.now place o → ⊥) }
{
    if is_word(words, place, b"-") {
        return Some(None);
    }
    let bound = cost(words, place)?;
    Some(Some(bound))
}

fn cert_head(words: &Words) -> Option<CertHead>
    ensures some { IfSome result (λ h. IsCertHeadAt words.now h) }
    ensures none { IfNone result ((h : CertHead) → IsCertHeadAt words.now h → ⊥) }
{
    if !is_form(words, b"cert", 3) {
        return None;
    }
    let bound = bound(words, 1)?;
    let entries = count(words, 2)?;
    Some(CertHead { bound, entries })
}

impl Line for CertHead {
    ghost part = { λ b. cert_head };

    ghost spelling = { λ b. cert_head_words };

    fn of_words(_board: &Board, words: &Words) -> Option<CertHead> {
        cert_head(words)
    }
}

/// The number of a source box or of an entry, behind this word.
fn origin_of(words: &Words, keyword: &[u8]) -> Option<u64>
    ensures some { IfSome result (λ n. IsOriginOfAt words.now keyword.now n) }
    ensures none { IfNone result ((n : ℕ) → IsOriginOfAt words.now keyword.now n → ⊥) }
{
    if !is_form(words, keyword, 12) {
        return None;
    }
    count(words, 1)
}

fn via_origin(board: &Board, words: &Words) -> Option<Origin>
    ensures some { IfSome result (λ o. IsOriginAt board.now.parts words.now o) }
    ensures none { IfNone result ((n : ℕ) (k : KindId) → IsViaOriginAt board.now.parts words.now n k → ⊥) }
{
    if !is_form(words, b"via", 13) {
        return None;
    }
    let entry = count(words, 1)?;
    let kind = kind(board, words, 2)?;
    Some(Origin::Via(entry, kind))
}

fn origin(board: &Board, words: &Words) -> Option<Origin>
    ensures some { IfSome result (λ o. IsOriginAt board.now.parts words.now o) }
    ensures none { IfNone result ((o : Origin) → IsOriginAt board.now.parts words.now o → ⊥) }
{
    if let Some(source) = origin_of(words, b"src") {
        return Some(Origin::Source(source));
    }
    if let Some(entry) = origin_of(words, b"step") {
        return Some(Origin::Step(entry));
    }
    via_origin(board, words)
}

/// How many words tell where an entry comes from.
fn origin_place(origin: Origin) -> usize
    ensures { result ≡ origin_place origin }
{
    match origin {
        Origin::Source(_) => 2,
        Origin::Step(_) => 2,
        Origin::Via(_, _) => 3,
    }
}

/// The entry of this origin whose layer stands in the place.
fn entry_from(board: &Board, words: &Words, place: usize, origin: Origin) -> Option<Entry>
    requires { place < 50 }
    ensures some { IfSome result (λ e. IsEntryRestAt board.now.parts words.now place e) }
    ensures origin { IfSome result (λ e. e.origin ≡ origin) }
    ensures none { IfNone result ((e : Entry) → IsEntryRestAt board.now.parts words.now place e → ⊥) }
{
    let layer = layer(board, words, place)?;
    let strip = area(words, place + 1)?;
    let front = area(words, place + 5)?;
    let cost = cost(words, place + 9)?;
    Some(Entry {
        layer,
        strip,
        front,
        cost,
        origin,
    })
}

fn entry(board: &Board, words: &Words) -> Option<Entry>
    ensures some { IfSome result (λ e. IsEntryAt board.now.parts words.now e) }
    ensures none { IfNone result ((e : Entry) → IsEntryAt board.now.parts words.now e → ⊥) }
{
    let origin = origin(board, words)?;
    entry_from(board, words, origin_place(origin), origin)
}

impl Line for Entry {
    ghost part = { entry_line };

    ghost spelling = { entry_words };

    fn of_words(board: &Board, words: &Words) -> Option<Entry> {
        entry(board, words)
    }
}
