//! The words that threads share. This file alone has their table and the steps on it, and each kind of step is here
//! once: so a seat counts a load only where this file loads that word, and no other file can make a step.
ghost use Rattle.std.specs.Prelude.{◌≡◌, ℕ, ◌+◌, ◌<◌, ◌≤◌, IfOk, length};
ghost use Rattle.std.specs.Mem.Slots.{slots_items, slots_len, IsFull};
ghost use mathlib.Core.Option.{none};
ghost use Rattle.atomic_table.specs.Table.{step};
ghost use Rattle.slot_evidence.specs.Allowed.{IsAllowed};
ghost use Rattle.evidence_board.specs.declared.seats.TheConstants.{WHOLE};
ghost use Rattle.evidence_board.specs.Views.{no_reach, place_at, fresh, spent};
ghost use Rattle.evidence_board.specs.Rule.{IsKept, IsWithin, words_of};
ghost use Rattle.evidence_board.specs.Seats.{IsSeated};
ghost use Rattle.evidence_board.specs.Steps.{posted_least, posted_past, loaded_least, loaded_past, kept_half, new_half, both};
ghost use Rattle.evidence_board.specs.inside.May.{MayLower, MayRaise, MayLoadLeast, MayLoadPast};
ghost use Rattle.evidence_board.specs.inside.Tells.{Changed, posts_least, posts_past, IsLeastFound, loads_least, IsPastFound, loads_past, weighs};

use crate::allowed::Allowed;
use atomic_table::{Closed, Join, Play, Split, Table, TableRule};
use std::alloc::{AllocError, Global};
use std::marker::{Model, PhantomData};

/// What a seat knows, for contracts alone: no value of it is made.
struct Knowledge {
    none: u8,
}

impl Model for Knowledge {
    ghost use Rattle.evidence_board.specs.Views.{View, spent};

    ghost Value = { View };

    ghost view = { λ _. spent };
}

type Stepper = atomic_table::Seat<u8, Knowledge>;

type Shared<A> = atomic_table::Shared<u8, Knowledge, (), Rule<A>>;

/// The board's rule.
struct Rule<A> {
    of: PhantomData<A>,
}

impl<A: Allowed> TableRule<u8, Knowledge, ()> for Rule<A> {
    ghost holds = { λ _ s. IsKept A.facts s.words s.views };

    ghost first = { λ _. fresh WHOLE };
}

/// A symbol is posted on a least word.
struct PostsLeast;

impl Play<u8, Knowledge> for PostsLeast {
    ghost then = { posts_least };
}

/// The number after a symbol is posted on a greatest word.
struct PostsPast;

impl Play<u8, Knowledge> for PostsPast {
    ghost then = { posts_past };
}

/// A least word is loaded.
struct LoadsLeast<A> {
    of: PhantomData<A>,
}

impl<A: Allowed> Play<u8, Knowledge> for LoadsLeast<A> {
    ghost then = { loads_least A.facts };
}

/// A greatest word is loaded.
struct LoadsPast<A> {
    of: PhantomData<A>,
}

impl<A: Allowed> Play<u8, Knowledge> for LoadsPast<A> {
    ghost then = { loads_past A.facts };
}

/// A word is loaded and ignored, to learn that a share is at most the whole one.
struct Weighs;

impl Play<u8, Knowledge> for Weighs {
    ghost then = { weighs };
}

/// A seat is split in two.
struct Halves;

impl Split<Knowledge> for Halves {
    ghost left = { kept_half };

    ghost right = { new_half };
}

/// A seat is joined into another.
struct Adds;

impl Join<Knowledge> for Adds {
    ghost both = { both };

    ghost spent = { spent };
}

/// Posts a symbol on the least word of a place.
fn lower_word<A: Allowed>(words: &Shared<A>, token: &mut Stepper, p: u8, symbol: u8)
    requires table { (token.old.table_id ≡ words.now.table_id) × (words.now.table_id.words ≡ 128) }
    requires place { p < 64 }
    requires keeps { MayLower A.facts words.now.table_id.slots token.old.id token.old.me p symbol }
    ensures table { token.new.table_id ≡ token.old.table_id }
    ensures no_slot { token.new.me.1 ≡ token.old.me.1 }
    ensures place { Changed token.old.me.0 p (posted_least symbol (place_at token.old.me.0 p)) token.new.me.0 }
{
    words.fetch_min::<PostsLeast>(token, p as usize, symbol as u64);
}

/// Posts the number after a symbol on the greatest word of a place.
fn raise_word<A: Allowed>(words: &Shared<A>, token: &mut Stepper, p: u8, symbol: u8)
    requires table { (token.old.table_id ≡ words.now.table_id) × (words.now.table_id.words ≡ 128) }
    requires place { p < 64 }
    requires keeps { MayRaise A.facts words.now.table_id.slots token.old.id token.old.me p (symbol + 1) }
    ensures table { token.new.table_id ≡ token.old.table_id }
    ensures no_slot { token.new.me.1 ≡ token.old.me.1 }
    ensures place { Changed token.old.me.0 p (posted_past (symbol + 1) (place_at token.old.me.0 p)) token.new.me.0 }
{
    words.fetch_max::<PostsPast>(token, 64 + p as usize, symbol as u64 + 1);
}

/// Loads the least word of a place.
fn least_word<A: Allowed>(words: &Shared<A>, token: &mut Stepper, p: u8) -> u64
    requires table { (token.old.table_id ≡ words.now.table_id) × (words.now.table_id.words ≡ 128) }
    requires place { p < 64 }
    requires keeps { MayLoadLeast A.facts words.now.table_id.slots token.old.id token.old.me p }
    ensures table { token.new.table_id ≡ token.old.table_id }
    ensures told { loads_least A.facts (step words.now.table_id.slots p 0 0 none) token.old.me result token.new.me }
{
    words.load::<LoadsLeast<A>>(token, p as usize)
}

/// Loads the greatest word of a place: the number after the greatest symbol, or 0.
fn past_word<A: Allowed>(words: &Shared<A>, token: &mut Stepper, p: u8) -> u64
    requires table { (token.old.table_id ≡ words.now.table_id) × (words.now.table_id.words ≡ 128) }
    requires place { p < 64 }
    requires keeps { MayLoadPast A.facts words.now.table_id.slots token.old.id token.old.me p }
    ensures table { token.new.table_id ≡ token.old.table_id }
    ensures told { loads_past A.facts (step words.now.table_id.slots (64 + p) 0 0 none) token.old.me result
        token.new.me }
{
    words.load::<LoadsPast<A>>(token, 64 + p as usize)
}

/// The words of an empty board.
fn empty_words() -> [u64; 128]
    ensures size { length result ≡ 128 }
    ensures each { (p : ℕ) → p < 64 → words_of result p ≡ no_reach }
{
    let mut words = [0; 128];
    for p in 0..64 {
        words[p] = 128;
    }
    words
}

/// What one seat steps with. Contracts see it as its table and what the seat knows, which changes by the steps of
/// `Words` alone.
#[derive(Drop)]
pub(crate) struct Token {
    seat: Stepper,
}

impl Model for Token {
    ghost use Rattle.std.specs.Prelude.{◌≡◌, []};
    ghost use Rattle.evidence_board.specs.Seats.{Held};

    ghost Value = { Held };

    ghost view = { λ t. record { table = t.seat.table_id; view = t.seat.me.0 } };

    ghost invariant = { λ t. t.seat.me.1 ≡ [] };
}

/// The table of the 128 words, and the six kinds of steps on them. Contracts see it as its table's name.
#[derive(Drop)]
pub(crate) struct Words<A: Allowed> {
    table: Table<u8, Knowledge, (), Rule<A>, Global>,
}

impl<A: Allowed> Model for Words<A> {
    ghost use Rattle.std.specs.Prelude.{◌≡◌};
    ghost use Rattle.atomic_table.specs.Seated.{TableId, table_id_coded};

    ghost Value = { TableId };

    ghost coded = { table_id_coded };

    ghost view = { λ w. w.table.shared.table_id };

    ghost invariant = { λ w. (w.table.shared.table_id.words ≡ 128) × (w.table.shared.table_id.slots ≡ 0) };
}

impl<A: Allowed> Words<A> {
    /// The words of an empty board, and what its first seat steps with. The error is want of memory.
    pub(crate) fn new(alloc: Global) -> Result<(Words<A>, Token), AllocError>
        ensures { IfOk result (λ made. (made.1.table ≡ made.0) × (made.1.view ≡ fresh WHOLE)) }
    {
        let words = empty_words();
        let (table, seat) = Table::of_words(alloc, &words, &())?;
        Ok((Words { table }, Token { seat }))
    }

    /// Posts a symbol on the least word of a place.
    pub(crate) fn lower(&self, token: &mut Token, p: u8, symbol: u8)
        requires table { token.old.table ≡ self.now }
        requires place { p < 64 }
        requires alive { 1 ≤ token.old.view.share }
        requires allowed { IsAllowed A.facts p symbol }
        ensures table { token.new.table ≡ token.old.table }
        ensures place { Changed token.old.view p (posted_least symbol (place_at token.old.view p)) token.new.view }
    {
        lower_word(&self.table.shared, &mut token.seat, p, symbol);
    }

    /// Posts a symbol on the greatest word of a place, after one that is no greater was posted on the least word.
    pub(crate) fn raise(&self, token: &mut Token, p: u8, symbol: u8)
        requires table { token.old.table ≡ self.now }
        requires place { p < 64 }
        requires alive { 1 ≤ token.old.view.share }
        requires allowed { IsAllowed A.facts p symbol }
        requires low { (place_at token.old.view p).given.least ≤ symbol }
        ensures table { token.new.table ≡ token.old.table }
        ensures place { Changed token.old.view p (posted_past (symbol + 1) (place_at token.old.view p)) token.new.view }
    {
        raise_word(&self.table.shared, &mut token.seat, p, symbol);
    }

    /// Loads the least word of a place, which raises the count of such loads by one at this place, and no other count.
    pub(crate) fn load_least(&self, token: &mut Token, p: u8) -> u64
        requires table { token.old.table ≡ self.now }
        requires place { p < 64 }
        requires alive { 1 ≤ token.old.view.share }
        ensures table { token.new.table ≡ token.old.table }
        ensures place { Changed token.old.view p (loaded_least result (place_at token.old.view p)) token.new.view }
        ensures told { IsLeastFound A.facts p token.old.view result }
    {
        least_word(&self.table.shared, &mut token.seat, p)
    }

    /// Loads the greatest word of a place: the number after the greatest symbol, or 0. It raises the count of such
    /// loads by one at this place, and no other count.
    pub(crate) fn load_past(&self, token: &mut Token, p: u8) -> u64
        requires table { token.old.table ≡ self.now }
        requires place { p < 64 }
        requires alive { 1 ≤ token.old.view.share }
        ensures table { token.new.table ≡ token.old.table }
        ensures place { Changed token.old.view p (loaded_past result (place_at token.old.view p)) token.new.view }
        ensures told { IsPastFound A.facts p token.old.view result }
    {
        past_word(&self.table.shared, &mut token.seat, p)
    }

    /// Splits a seat: the one half stays, and the new seat has the other.
    pub(crate) fn split(&self, token: &mut Token) -> Token
        requires table { token.old.table ≡ self.now }
        requires share { 2 ≤ token.old.view.share }
        ensures table { (token.new.table ≡ token.old.table) × (result.table ≡ token.old.table) }
        ensures kept { token.new.view ≡ kept_half token.old.view }
        ensures other { result.view ≡ new_half token.old.view }
    {
        let seat = self.table.shared.split_seat::<Halves>(&mut token.seat);
        Token { seat }
    }

    /// Joins a seat into another. A load that changes nothing shows then that the share is at most the whole one.
    pub(crate) fn join(&self, token: &mut Token, other: Token)
        requires table { (token.old.table ≡ self.now) × (other.table ≡ self.now) }
        requires alive { 1 ≤ token.old.view.share }
        ensures table { token.new.table ≡ token.old.table }
        ensures view { token.new.view ≡ both token.old.view other.view }
        ensures share { token.new.view.share ≤ WHOLE }
    {
        let Token { seat } = other;
        self.table.shared.join_seat::<Adds>(&mut token.seat, seat);
        self.table.shared.load::<Weighs>(&mut token.seat, 0);
    }

    /// Ends the table: its words are what the seat with the whole share posted.
    pub(crate) fn close(self, token: Token) -> Closed<u8, Global>
        requires table { token.table ≡ self }
        requires whole { token.view.share ≡ WHOLE }
        requires seated { IsSeated token.view }
        ensures counts { (slots_len result.words ≡ 128) × IsFull result.words × (slots_len result.slots ≡ 0) }
        ensures words { (p : ℕ) → p < 64 → words_of (slots_items result.words) p ≡ (place_at token.view p).given }
        ensures seen { (p : ℕ) → p < 64 → IsWithin (place_at token.view p).seen (place_at token.view p).given }
    {
        let Words { table } = self;
        let Token { seat } = token;
        table.close_with(seat)
    }
}
