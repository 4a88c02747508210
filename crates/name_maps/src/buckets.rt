// Values of names in instances, found by a hash of an instance's number and a name's bytes.
ghost use Rattle.std.specs.Prelude.{◌≡◌, ◌<◌, ◌+◌, ◌*◌, ◌%◌, ◌&&◌, ◌==◌, [], List, ℕ, Some, None, length, OnOk, IfOk, if◌then◌else◌};
ghost use Rattle.name_maps.specs.Rows.{number_on, is_row_of, last_named, rows_of, held_named, buckets_named, TakesRow};

use std::alloc::Global;
use std::marker::Model;
use text_core::{NoMemory, is_same};

/// A name in the instance with this number, and its value.
#[derive(Drop)]
pub struct NamedValue<'a, V> {
    pub instance: usize,
    pub name: &'a [u8],
    pub value: V,
}

// The most rows behind the first two of a bucket. Names can be chosen to have one hash, so a bucket has no room for all
// of them.
const MOST_BEHIND: usize = 8;

/// Entries with one hash, in the order in which they were added.
///
/// Most buckets have one entry or two, which are stored inline.
#[derive(Drop)]
pub struct Bucket<'a, V> {
    pub first: Option<NamedValue<'a, V>>,
    pub second: Option<NamedValue<'a, V>>,
    pub rest: Vec<NamedValue<'a, V>>,
}

/// Rows by their numbers: buckets, of which there is one at least, seen as their list.
#[derive(Drop)]
pub struct Buckets<'a, V> {
    list: Vec<Bucket<'a, V>>,
}

impl<'a, V> Model for Buckets<'a, V> {
    ghost use Rattle.std.specs.Prelude.{◌<◌, List, length};
    ghost use Rattle.name_maps.specs.declared.buckets.Bucket.{Bucket as BucketOf};

    ghost Value = { List (BucketOf V) };

    ghost view = { λ bs. bs.list.items };

    ghost invariant = { λ bs. 0 < length bs.list.items };
}

// The multiplier is a prime greater than the number of names. So no count of buckets puts all names into a few of
// them.
#[inline(always)]
fn next_number(h: usize, b: u8) -> usize
    requires { h < 4294967296 }
    ensures bound { result < 4294967296 }
    ensures next { result ≡ (h * 16777619 + b) % 4294967296 }
{
    (h * 16777619 + b as usize) % 4294967296
}

#[inline(always)]
fn number_of(i: usize, name: &[u8]) -> usize
    ensures { result ≡ number_on (i % 4294967296) name.now }
{
    let mut h = i % 4294967296;
    for b in name {
        h = next_number(h, *b);
    }
    h
}

// The bucket of a name in the instance with this number.
#[inline(always)]
fn bucket_of(i: usize, name: &[u8], count: usize) -> usize
    requires { 0 < count }
    ensures bound { result < count }
    ensures number { result ≡ number_on (i % 4294967296) name.now % count }
{
    number_of(i, name) % count
}

#[inline(always)]
fn is_row_of<'a, V>(row: &NamedValue<'a, V>, i: usize, name: &[u8]) -> bool
    ensures { result ≡ is_row_of row.now i name.now }
{
    row.instance == i && is_same(row.name, name)
}

// The value that was set last for a name.
#[inline(never)]
fn last_value<'a, V: Copy>(rows: &[NamedValue<'a, V>], i: usize, name: &[u8]) -> Option<V>
    ensures { result ≡ last_named rows.now i name.now }
{
    let mut k = rows.len();
    while k > 0 {
        k -= 1;
        let row = &rows[k];
        if is_row_of(row, i, name) {
            return Some(row.value);
        }
    }
    None
}

/// Returns the value that was set last for this name of instance `i` in a bucket, or None.
#[inline(always)]
pub fn held_value<'a, V: Copy>(bucket: &Bucket<'a, V>, i: usize, name: &[u8]) -> Option<V>
    ensures { result ≡ held_named bucket.now i name.now }
{
    if !bucket.rest.is_empty() {
        if let Some(value) = last_value(bucket.rest.as_slice(), i, name) {
            return Some(value);
        }
    }
    if let Some(row) = &bucket.second {
        if is_row_of(row, i, name) {
            return Some(row.value);
        }
    }
    if let Some(row) = &bucket.first {
        if is_row_of(row, i, name) {
            return Some(row.value);
        }
    }
    None
}

fn empty_bucket<'a, V: Drop>(alloc: Global) -> Bucket<'a, V>
    ensures { rows_of result.first (rows_of result.second result.rest.items) ≡ [] }
{
    Bucket {
        first: None,
        second: None,
        rest: Vec::new(alloc),
    }
}

fn add_to<'a, V: Drop>(bucket: &mut Bucket<'a, V>, row: NamedValue<'a, V>) -> Result<(), NoMemory>
    ensures { OnOk result ((j : ℕ) (y : List ℕ) → held_named bucket.new j y ≡ (if is_row_of row.entry j y then Some row.entry.value else held_named bucket.old j y)) }
{
    if bucket.rest.is_empty() && bucket.second.is_none() {
        if bucket.first.is_none() {
            bucket.first = Some(row);
        } else {
            bucket.second = Some(row);
        }
    } else {
        bucket.rest.push(row)?;
    }
    Ok(())
}

/// Sets the value of this name in instance `i`, if its bucket has room for one more entry.
///
/// It replaces any earlier value. Returns the value where the bucket is full.
pub fn add_to_buckets<'a, V: Drop>(
    buckets: &mut Buckets<'a, V>,
    i: usize,
    name: &'a [u8],
    value: V,
) -> Result<Option<V>, NoMemory>
    ensures { IfOk result (λ left. TakesRow left i name.now value buckets.old buckets.new) }
{
    let k = bucket_of(i, name, buckets.list.len());
    if buckets.list[k].rest.len() >= MOST_BEHIND {
        return Ok(Some(value));
    }
    let row = NamedValue {
        instance: i,
        name,
        value,
    };
    add_to(&mut buckets.list[k], row)?;
    Ok(None)
}

/// Returns the value of this name in instance `i`, or None.
#[inline(always)]
pub fn value_in_buckets<'a, V: Copy>(buckets: &Buckets<'a, V>, i: usize, name: &[u8]) -> Option<V>
    ensures { result ≡ buckets_named buckets.now i name.now }
{
    let k = bucket_of(i, name, buckets.list.len());
    held_value(&buckets.list[k], i, name)
}

/// So many empty buckets, one at least.
pub fn empty_buckets<'a, V: Drop>(alloc: Global, count: usize) -> Result<Buckets<'a, V>, NoMemory>
    ensures { IfOk result (λ bs. (j : ℕ) (y : List ℕ) → buckets_named bs j y ≡ None) }
{
    let count = count.max(1);
    let mut list = Vec::with_capacity(alloc, count)?;
    for _ in 0..count {
        list.push(empty_bucket(alloc))?;
    }
    Ok(Buckets { list })
}
