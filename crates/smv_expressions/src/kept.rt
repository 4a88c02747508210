// Expressions that were read, with their heights.

ghost use Rattle.std.specs.Prelude.{◌≡◌, ◌<◌, ◌+◌, ◌∷◌, ◌++◌, [], max, ℕ, List, IfOk, IfErr, OnOk};
ghost use Rattle.smv_text.specs.Heights.{height, chain_height, is_implied, is_joined, joined_number};
ghost use Rattle.smv_text.specs.Tree.{Tree, prefix, select, next, cases, branches_of};
ghost use Rattle.smv_expressions.specs.declared.stop.Stop.TheVariants.{NoMemory};
ghost use Rattle.smv_grammar.specs.Kept.{cap, capped, keep_at};
ghost use Rattle.smv_grammar.specs.Machine.{listed, choice_at, whole};
ghost use Rattle.smv_expressions.specs.Gathered.{read_of, shaped, single, AreMembers, AreCases, AreHeights, AreOperands, first_number};

use crate::stop::Stop;
use smv_grammar::Listing;
use smv_text::{Branch, Branches, Expr, Exprs, Infix, Link, Links, Path, Prefix, Shape};
use std::alloc::Global;
use std::mem;
use text_core::{Name, Names, Place};

/// An expression that was read, and its height.
///
/// An expression above the limit is not stored. A leaf then takes its place, with a height above the limit.
#[derive(Drop)]
pub struct MeasuredExpr {
    pub expr: Expr,
    pub height: u32,
}

/// The greatest allowed height of an expression.
pub const MOST: u32 = 380;

// The height, or one more than the limit where it is above the limit.
fn capped(height: u32) -> u32
    ensures { result ≡ capped height }
{
    if height <= MOST { height } else { MOST + 1 }
}

fn higher(a: u32, b: u32) -> u32
    ensures { result ≡ max a b }
{
    if a < b { b } else { a }
}

// The height of a node whose highest subexpression, of this height, is `depth` levels below it.
fn under(depth: u32, height: u32) -> u32
    ensures { result ≡ capped (depth + height) }
{
    capped(depth.saturating_add(height))
}

// Stores an expression of this height. Mostly a leaf was stored before, which is tested first: a drop takes much
// longer.
#[inline(always)]
fn put(kept: &mut MeasuredExpr, place: Place, shape: Shape, height: u32)
    ensures { read_of kept.new ≡ record { tree = shaped place shape; height = height } }
{
    match &kept.expr.shape {
        Shape::True => {
            kept.expr = Expr { place, shape };
            kept.height = height;
        }
        _ => put_over(kept, place, shape, height),
    }
}

#[inline(never)]
fn put_over(kept: &mut MeasuredExpr, place: Place, shape: Shape, height: u32)
    ensures { read_of kept.new ≡ record { tree = shaped place shape; height = height } }
{
    kept.expr = Expr { place, shape };
    kept.height = height;
}

// Stores an expression of this height, or a leaf where the height is above the limit.
#[inline(always)]
fn keep(kept: &mut MeasuredExpr, place: Place, shape: Shape, height: u32)
    ensures { read_of kept.new ≡ keep_at place (shaped place shape) height }
{
    if height <= MOST {
        put(kept, place, shape, height);
    } else {
        put_over(kept, place, Shape::True, MOST + 1);
    }
}

// Moves the stored expression into a box, and leaves a leaf. The room is reserved first: after the swap it is clear
// that `keep` drops a leaf.
#[inline(always)]
fn boxed(alloc: Global, kept: &mut MeasuredExpr) -> Result<Box<Expr>, Stop>
    ensures made { IfOk result (λ b. b.value ≡ kept.old.expr) }
    ensures free { IfErr result (λ e. e ≡ NoMemory) }
{
    let place = kept.expr.place;
    let left = Expr {
        place,
        shape: Shape::True,
    };
    let mut room = Box::new(alloc, left)?;
    mem::swap(&mut *room, &mut kept.expr);
    Ok(room)
}

/// Returns an expression without subexpressions.
pub fn leaf(place: Place, shape: Shape) -> MeasuredExpr
    ensures { read_of result ≡ record { tree = shaped place shape; height = 1 } }
{
    MeasuredExpr {
        expr: Expr { place, shape },
        height: 1,
    }
}

/// Stores an expression without subexpressions.
#[inline(always)]
pub(crate) fn put_leaf(kept: &mut MeasuredExpr, place: Place, shape: Shape)
    ensures { read_of kept.new ≡ record { tree = shaped place shape; height = 1 } }
{
    put(kept, place, shape, 1);
}

/// Stores a single name, at its place.
#[inline(always)]
pub(crate) fn name_leaf(
    alloc: Global,
    place: Place,
    name: &Name,
    kept: &mut MeasuredExpr,
) -> Result<(), Stop>
    ensures made { OnOk result (read_of kept.new ≡ cap (single place name.now)) }
    ensures free { IfErr result (λ e. e ≡ NoMemory) }
{
    let path = Path {
        from_self: false,
        names: Names::one(alloc, name.duplicate(alloc)?),
        place,
    };
    put_leaf(kept, place, Shape::Name(path));
    Ok(())
}

/// Takes the stored expression, and leaves a leaf.
pub(crate) fn taken(kept: &mut MeasuredExpr) -> MeasuredExpr
    ensures { result ≡ kept.old }
{
    let place = kept.expr.place;
    mem::replace(kept, leaf(place, Shape::True))
}

/// Drops a stored expression.
///
/// This is a function of its own so that the functions that read expressions stay small.
#[inline(never)]
pub(crate) fn discard(_kept: MeasuredExpr) {}

/// Stores the repeated prefix operator applied to the stored expression.
pub(crate) fn prefixed(
    alloc: Global,
    place: Place,
    sign: Prefix,
    count: u32,
    kept: &mut MeasuredExpr,
) -> Result<(), Stop>
    ensures made { (t : Tree) → read_of kept.old ≡ cap t → OnOk result (read_of kept.new ≡ cap (prefix place sign count t)) }
    ensures free { IfErr result (λ e. e ≡ NoMemory) }
{
    let height = under(count, kept.height);
    let operand = boxed(alloc, kept)?;
    keep(kept, place, Shape::Prefix(sign, count, operand), height);
    Ok(())
}

/// Stores a selection of bits of the stored expression.
pub(crate) fn selected(
    alloc: Global,
    place: Place,
    kept: &mut MeasuredExpr,
    high: u64,
    low: u64,
) -> Result<(), Stop>
    ensures made { (t : Tree) → read_of kept.old ≡ cap t → OnOk result (read_of kept.new ≡ cap (select place t high low)) }
    ensures free { IfErr result (λ e. e ≡ NoMemory) }
{
    let height = under(1, kept.height);
    let word = boxed(alloc, kept)?;
    keep(kept, place, Shape::Select(word, high, low), height);
    Ok(())
}

/// Stores `next` of the stored expression.
pub(crate) fn next_value(alloc: Global, place: Place, kept: &mut MeasuredExpr) -> Result<(), Stop>
    ensures made { (t : Tree) → read_of kept.old ≡ cap t → OnOk result (read_of kept.new ≡ cap (next place t)) }
    ensures free { IfErr result (λ e. e ≡ NoMemory) }
{
    let height = under(1, kept.height);
    let argument = boxed(alloc, kept)?;
    keep(kept, place, Shape::Next(argument), height);
    Ok(())
}

/// The expressions of a list so far, and the greatest of their heights.
#[derive(Drop)]
pub(crate) struct Members {
    exprs: Exprs,
    highest: u32,
}

impl Members {
    pub(crate) fn new(alloc: Global) -> Members
        ensures { AreMembers [] result }
    {
        Members {
            exprs: Vec::new(alloc),
            highest: 0,
        }
    }

    pub(crate) fn push(&mut self, member: MeasuredExpr) -> Result<(), Stop>
        ensures made { (ts : List Tree) (t : Tree) → AreMembers ts self.old → read_of member ≡ cap t → OnOk result (AreMembers (ts ++ t ∷ []) self.new) }
        ensures free { IfErr result (λ e. e ≡ NoMemory) }
    {
        self.highest = higher(self.highest, member.height);
        self.exprs.push(member.expr)?;
        Ok(())
    }

    /// Stores the list.
    pub(crate) fn put(self, place: Place, what: Listing, kept: &mut MeasuredExpr)
        ensures { (ts : List Tree) → AreMembers ts self → read_of kept.new ≡ cap (listed place what ts) }
    {
        let height = under(1, self.highest);
        match what {
            Listing::Arguments(function) => {
                keep(kept, place, Shape::Call(function, self.exprs), height);
            }
            Listing::Elements => keep(kept, place, Shape::Set(self.exprs), height),
        }
    }
}

/// The branches of a choice or a case so far, their number of levels above what follows, and their height so far.
#[derive(Drop)]
pub(crate) struct Cases {
    branches: Branches,
    depth: u32,
    highest: u32,
}

impl Cases {
    pub(crate) fn new(alloc: Global) -> Cases
        ensures { AreCases [] result }
    {
        Cases {
            branches: Vec::new(alloc),
            depth: 0,
            highest: 0,
        }
    }

    #[inline(always)]
    pub(crate) fn push(&mut self, when: MeasuredExpr, value: MeasuredExpr) -> Result<(), Stop>
        ensures made { (bs : List (Tree × Tree)) (w v : Tree) → AreCases bs self.old → read_of when ≡ cap w → read_of value ≡ cap v → OnOk result (AreCases (bs ++ (w, v) ∷ []) self.new) }
        ensures free { IfErr result (λ e. e ≡ NoMemory) }
    {
        self.depth = under(1, self.depth);
        let height = under(self.depth, higher(when.height, value.height));
        self.highest = higher(self.highest, height);
        self.branches.push(Branch {
            when: when.expr,
            value: value.expr,
        })?;
        Ok(())
    }

    /// Stores the choice with the stored expression as the value after the last colon.
    ///
    /// Without branches, leaves the stored expression unchanged.
    pub(crate) fn choice(
        self,
        alloc: Global,
        place: Place,
        kept: &mut MeasuredExpr,
    ) -> Result<(), Stop>
        ensures made { (bs : List (Tree × Tree)) (t : Tree) → AreCases bs self → read_of kept.old ≡ cap t → OnOk result (read_of kept.new ≡ cap (choice_at place (branches_of bs) t)) }
        ensures free { IfErr result (λ e. e ≡ NoMemory) }
    {
        if self.branches.is_empty() {
            return Ok(());
        }
        let height = higher(self.highest, under(self.depth, kept.height));
        let last = boxed(alloc, kept)?;
        keep(kept, place, Shape::Choice(self.branches, last), height);
        Ok(())
    }

    /// Stores the case.
    pub(crate) fn case(self, place: Place, kept: &mut MeasuredExpr)
        ensures { (bs : List (Tree × Tree)) → AreCases bs self → read_of kept.new ≡ cap (cases place (branches_of bs)) }
    {
        let height = higher(self.highest, self.depth);
        keep(kept, place, Shape::Case(self.branches), height);
    }
}

/// The operands of a chain so far, after the first.
#[derive(Drop)]
pub(crate) struct Operands {
    links: Links,
    heights: Heights,
}

// The height of a chain so far, for each way to fold it.
#[derive(Clone, Copy)]
struct Heights {
    // The number of the first operator among those that form one node per chain, or 0 for any other.
    number: u8,
    // Whether all operators are that one.
    joined: bool,
    // Whether the operators are implications.
    implied: bool,
    // The number of operators.
    depth: u32,
    // The height of the highest operand.
    highest: u32,
    // The height where each operator joins all before it to the next operand.
    folded: u32,
    // The greatest height of the operands before the last, each below the operators up to it.
    before: u32,
    // The height of the last operand.
    last: u32,
}

impl Heights {
    fn new(first: u32) -> Heights
        ensures { (n : ℕ) → first ≡ capped n → AreHeights n [] result }
    {
        Heights {
            number: 0,
            joined: true,
            implied: false,
            depth: 0,
            highest: first,
            folded: first,
            before: 0,
            last: first,
        }
    }

    // The heights with one more operator and its operand.
    fn with(self, op: Infix, height: u32) -> Heights
        ensures { (n : ℕ) (ls : List (Infix × ℕ)) (m : ℕ) → AreHeights n ls self → height ≡ capped m → AreHeights n (ls ++ (op, m) ∷ []) result }
    {
        let depth = under(1, self.depth);
        Heights {
            number: self.number_with(op),
            joined: self.is_joined_with(op),
            implied: self.is_implied_with(op),
            depth,
            highest: higher(self.highest, height),
            folded: under(1, higher(self.folded, height)),
            before: higher(self.before, under(depth, self.last)),
            last: height,
        }
    }

    fn number_with(self, op: Infix) -> u8
        ensures { (n m : ℕ) (ls : List (Infix × ℕ)) → AreHeights n ls self → result ≡ first_number (ls ++ (op, m) ∷ []) }
    {
        if self.depth == 0 {
            joined_number(op)
        } else {
            self.number
        }
    }

    fn is_joined_with(self, op: Infix) -> bool
        ensures { (n m : ℕ) (ls : List (Infix × ℕ)) → AreHeights n ls self → result ≡ is_joined (ls ++ (op, m) ∷ []) }
    {
        if self.depth == 0 {
            joined_number(op) > 0
        } else {
            self.joined && joined_number(op) == self.number
        }
    }

    fn is_implied_with(self, op: Infix) -> bool
        ensures { (n m : ℕ) (ls : List (Infix × ℕ)) → AreHeights n ls self → result ≡ is_implied (ls ++ (op, m) ∷ []) }
    {
        if self.depth == 0 {
            is_implies(op)
        } else {
            self.implied
        }
    }

    fn height(self) -> u32
        ensures { (n : ℕ) (ls : List (Infix × ℕ)) → AreHeights n ls self → result ≡ capped (chain_height n ls) }
    {
        if self.joined {
            under(1, self.highest)
        } else if self.implied {
            higher(self.before, under(self.depth, self.last))
        } else {
            self.folded
        }
    }
}

fn joined_number(op: Infix) -> u8
    ensures { result ≡ joined_number op }
{
    match op {
        Infix::And => 1,
        Infix::Or => 2,
        Infix::Xor => 3,
        Infix::Plus => 4,
        Infix::Times => 5,
        Infix::Union => 6,
        _ => 0,
    }
}

fn is_implies(op: Infix) -> bool
    ensures { (n : ℕ) (ls : List (Infix × ℕ)) → result ≡ is_implied ((op, n) ∷ ls) }
{
    match op {
        Infix::Implies => true,
        _ => false,
    }
}

impl Operands {
    pub(crate) fn new(alloc: Global, first: u32) -> Operands
        ensures { (t : Tree) → first ≡ capped (height t) → AreOperands t [] result }
    {
        Operands {
            links: Vec::new(alloc),
            heights: Heights::new(first),
        }
    }

    pub(crate) fn push(&mut self, op: Infix, operand: MeasuredExpr) -> Result<(), Stop>
        ensures made { (t : Tree) (ls : List (Infix × Tree)) (u : Tree) → AreOperands t ls self.old → read_of operand ≡ cap u → OnOk result (AreOperands t (ls ++ (op, u) ∷ []) self.new) }
        ensures free { IfErr result (λ e. e ≡ NoMemory) }
    {
        self.heights = self.heights.with(op, operand.height);
        self.links.push(Link {
            op,
            operand: operand.expr,
        })?;
        Ok(())
    }

    /// Stores the chain with the stored expression as its first operand.
    ///
    /// Without further operands, leaves the stored expression unchanged.
    pub(crate) fn chain(
        self,
        alloc: Global,
        place: Place,
        kept: &mut MeasuredExpr,
    ) -> Result<(), Stop>
        ensures made { (t : Tree) (ls : List (Infix × Tree)) → AreOperands t ls self → read_of kept.old ≡ cap t → OnOk result (read_of kept.new ≡ cap (whole place (record { first = t; links = ls }))) }
        ensures free { IfErr result (λ e. e ≡ NoMemory) }
    {
        if self.links.is_empty() {
            return Ok(());
        }
        let height = self.heights.height();
        let first = boxed(alloc, kept)?;
        keep(kept, place, Shape::Chain(first, self.links), height);
        Ok(())
    }
}
