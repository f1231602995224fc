// The routes so far, in chains with jumps.
ghost use Rattle.std.specs.Prelude.{◌≡◌, ◌<◌, ◌≤◌, ◌↔◌, ◌+◌, ◌-◌, ◌^◌, ◌%◌, ◌∷◌, ◌++◌, [], OnOk, slice_set, slice_index, ℕ, length, IsTrue, IfOk, IfSome, IfNone, false};
ghost use Rattle.route_split.specs.Routes.{place_of, IsNoLater};
ghost use Rattle.route_split.specs.Split.{CanStand, CannotStand};
ghost use Rattle.route_split.specs.Chains.{next_key, key_of, bucket_of, AreChains, AreChained};
ghost use Rattle.route_split.specs.Jumps.{IsBound, Bounds, IsJump, AreJumped, IsBehind};

use crate::follow::fits;
use move_model::{Call, List, NoMemory, Trip};
use std::alloc::Global;

// The number of a list of places, one place further.
#[tactic(auto, unfolding(crate::specs::Chains::next_key))]
fn next_number(key: u64, call: Call) -> u64
    ensures { result ≡ next_key key (place_of call) }
{
    let stop = u64::from(call.stop.0);
    (key ^ (key >> 29))
        .wrapping_mul(11_400_714_819_323_198_485)
        .wrapping_add(stop)
}

// A number of a trip's places: trips with equal places have equal numbers.
fn number_of(calls: &[Call]) -> u64
    ensures { result ≡ key_of calls.now }
{
    let mut key = 0;
    for call in calls {
        key = next_number(key, *call);
    }
    key
}

// Whether no second of a call is after that of another one.
fn call_is_no_later(c: &Call, d: &Call) -> bool
    ensures { IsTrue result ↔ ((c.now.arr ≤ d.now.arr) × (c.now.dep ≤ d.now.dep)) }
{
    c.arr <= d.arr && c.dep <= d.dep
}

// Whether no second of the first calls is after that of the second calls, call by call.
fn is_no_later(cs: &[Call], ds: &[Call]) -> bool
    ensures { IsNoLater cs.now ds.now → IsTrue result }
{
    for k in 0..cs.len() {
        if k < ds.len() && !call_is_no_later(&cs[k], &ds[k]) {
            return false;
        }
    }
    true
}

// A call with the least seconds of three.
fn least_call(a: &Call, b: &Call, c: &Call) -> Call
    ensures a { (result.arr ≤ a.now.arr) × (result.dep ≤ a.now.dep) }
    ensures b { (result.arr ≤ b.now.arr) × (result.dep ≤ b.now.dep) }
    ensures c { (result.arr ≤ c.now.arr) × (result.dep ≤ c.now.dep) }
{
    Call {
        stop: a.stop,
        arr: a.arr.min(b.arr).min(c.arr),
        dep: a.dep.min(b.dep).min(c.dep),
        board: a.board,
        alight: a.alight,
    }
}

// The least seconds of three lists of calls, call by call.
fn least(alloc: Global, a: &[Call], b: &[Call], c: &[Call]) -> Result<List<Call>, NoMemory>
    requires b { length b.now ≡ length a.now }
    requires c { length c.now ≡ length a.now }
    ensures a { IfOk result (λ low. IsBound low a.now) }
    ensures b { IfOk result (λ low. IsBound low b.now) }
    ensures c { IfOk result (λ low. IsBound low c.now) }
{
    let mut low: Vec<Call> = Vec::with_capacity(alloc, a.len())?;
    for k in 0..a.len() {
        low.push(least_call(&a[k], &b[k], &c[k]))?;
    }
    Ok(List::from_vec(low))
}

/// How many routes the tree below a route has, and the link of the tree above it.
#[derive(Clone, Copy)]
pub struct Tree {
    pub size: u32,
    pub above: u32,
}

/// The routes so far, in chains by the number of their places. Links count from 1, and 0 leads nowhere.
///
/// A route leads to the one before it in its chain, and its jump to one further down. What a jump leaps over is a tree:
/// the route itself, and the trees of the two routes behind it where these are of one size. The least seconds of the
/// last trips of a tree tell of many trips that none of its routes can take them, so a search passes most trees by.
#[derive(Drop)]
pub struct Chains {
    pub lasts: Vec<u32>,
    pub tops: Vec<u32>,
    pub nexts: Vec<u32>,
    pub jumps: Vec<u32>,
    pub lows: Vec<List<Call>>,
    pub trees: Vec<Tree>,
}

// No tree has more levels above it.
const LEVELS: u32 = 32;

impl Chains {
    /// No route yet.
    pub fn new(alloc: Global, count: usize) -> Result<Chains, NoMemory>
        requires { 0 < count }
        ensures lasts { IfOk result (λ chains. chains.lasts.items ≡ []) }
        ensures some { IfOk result (λ chains. 0 < length chains.tops.items) }
        ensures chained { IfOk result (λ chains. (key : ℕ → ℕ) → AreChains key 0 chains.tops.items chains.nexts.items) }
        ensures jumps { IfOk result (λ chains. chains.jumps.items ≡ []) }
        ensures lows { IfOk result (λ chains. chains.lows.items ≡ []) }
        ensures trees { IfOk result (λ chains. chains.trees.items ≡ []) }
    {
        let tops: Vec<u32> = vec![in alloc; 0; count]?;
        Ok(Chains {
            lasts: Vec::new(alloc),
            tops,
            nexts: Vec::new(alloc),
            jumps: Vec::new(alloc),
            lows: Vec::new(alloc),
            trees: Vec::new(alloc),
        })
    }

    /// The chain in which a route of the trip u stands.
    pub fn chain_of(&self, trips: &[Trip], u: usize) -> usize
        requires u { u < length trips.now }
        requires some { 0 < length self.now.tops.items }
        ensures bucket { result ≡ bucket_of trips.now (length self.now.tops.items) u }
        ensures below { result < length self.now.tops.items }
    {
        (number_of(trips[u].calls.as_slice()) % self.tops.len() as u64) as usize
    }

    // The link behind the route g, or behind its whole tree where no route of the tree can take the trip u.
    fn behind(&self, trips: &[Trip], u: usize, g: usize) -> u32
        requires u { u < length trips.now }
        requires g { g < length self.now.lasts.items }
        requires chained { AreChained trips.now self.now.lasts.items self.now.tops.items self.now.nexts.items }
        requires jumped { AreJumped trips.now (length self.now.tops.items) self.now.lasts.items self.now.nexts.items self.now.jumps.items self.now.lows.items }
        ensures { IsBehind (λ h. bucket_of trips.now (length self.now.tops.items) (slice_index self.now.lasts.items h)) trips.now self.now.lasts.items u g result }
    {
        let next = self.nexts[g];
        let jump = self.jumps[g];
        if jump == next {
            return next;
        }
        let low = self.lows[g].as_slice();
        if is_no_later(low, trips[u].calls.as_slice()) {
            return next;
        }
        jump
    }

    /// A route behind whose last trip the trip u can stand, if there is one: it is in the trip's chain.
    pub fn route_for(&self, trips: &[Trip], u: usize, chain: usize) -> Option<usize>
        requires u { u < length trips.now }
        requires lasts { (g : ℕ) → g < length self.now.lasts.items → slice_index self.now.lasts.items g < length trips.now }
        requires chained { AreChained trips.now self.now.lasts.items self.now.tops.items self.now.nexts.items }
        requires jumped { AreJumped trips.now (length self.now.tops.items) self.now.lasts.items self.now.nexts.items self.now.jumps.items self.now.lows.items }
        requires chain { chain ≡ bucket_of trips.now (length self.now.tops.items) u }
        requires below { chain < length self.now.tops.items }
        ensures found { IfSome result (λ g. g < length self.now.lasts.items) }
        ensures fits { IfSome result (λ g. CanStand trips.now (slice_index self.now.lasts.items g) u) }
        ensures none { IfNone result ((g : ℕ) → g < length self.now.lasts.items → CannotStand trips.now (slice_index self.now.lasts.items g) u) }
    {
        let mut link = self.tops[chain];
        while link != 0 {
            let g = (link - 1) as usize;
            if fits(trips, self.lasts[g] as usize, u) {
                return Some(g);
            }
            link = self.behind(trips, u, g);
        }
        None
    }

    // What bounds the last trips of a route's tree.
    fn bound<'a>(&'a self, trips: &'a [Trip], g: usize) -> &'a [Call]
        requires g { g < length self.now.lasts.items }
        requires lasts { (g : ℕ) → g < length self.now.lasts.items → slice_index self.now.lasts.items g < length trips.now }
        requires chained { AreChained trips.now self.now.lasts.items self.now.tops.items self.now.nexts.items }
        requires jumped { AreJumped trips.now (length self.now.tops.items) self.now.lasts.items self.now.nexts.items self.now.jumps.items self.now.lows.items }
        ensures { Bounds (λ h. bucket_of trips.now (length self.now.tops.items) (slice_index self.now.lasts.items h)) trips.now self.now.lasts.items result.now
            (slice_index self.now.jumps.items g) g }
    {
        if self.jumps[g] == self.nexts[g] {
            trips[self.lasts[g] as usize].calls.as_slice()
        } else {
            self.lows[g].as_slice()
        }
    }

    // The roots of the two trees behind a route, where they are of one size.
    fn two_trees(&self, p: usize) -> Option<(usize, usize)>
        requires p { p < length self.now.lasts.items }
        requires nexts { length self.now.nexts.items ≡ length self.now.lasts.items }
        requires next { slice_index self.now.nexts.items p ≤ p }
        requires jumps { length self.now.jumps.items ≡ length self.now.lasts.items }
        requires low { (g : ℕ) → g < length self.now.lasts.items → slice_index self.now.jumps.items g ≤ g }
        requires trees { length self.now.trees.items ≡ length self.now.lasts.items }
        ensures first { IfSome result (λ r. slice_index self.now.nexts.items p ≡ r.0 + 1) }
        ensures second { IfSome result (λ r. slice_index self.now.jumps.items r.0 ≡ r.1 + 1) }
    {
        let next = self.nexts[p];
        if next == 0 {
            return None;
        }
        let a = (next - 1) as usize;
        let jump = self.jumps[a];
        if jump == 0 {
            return None;
        }
        let b = (jump - 1) as usize;
        if self.trees[a].size == self.trees[b].size {
            Some((a, b))
        } else {
            None
        }
    }

    // The bound of a route's last trip and of the two trees behind it, if all have as many calls.
    fn leap_of(
        &self,
        alloc: Global,
        trips: &[Trip],
        p: usize,
        a: usize,
        b: usize,
    ) -> Result<Option<List<Call>>, NoMemory>
        requires p { p < length self.now.lasts.items }
        requires lasts { (g : ℕ) → g < length self.now.lasts.items → slice_index self.now.lasts.items g < length trips.now }
        requires chained { AreChained trips.now self.now.lasts.items self.now.tops.items self.now.nexts.items }
        requires jumped { AreJumped trips.now (length self.now.tops.items) self.now.lasts.items self.now.nexts.items self.now.jumps.items self.now.lows.items }
        requires a { a < length self.now.lasts.items }
        requires b { b < length self.now.lasts.items }
        requires first { slice_index self.now.nexts.items p ≡ a + 1 }
        requires second { slice_index self.now.jumps.items a ≡ b + 1 }
        ensures { IfOk result (λ found. IfSome found (λ low. IsJump (λ h. bucket_of trips.now (length self.now.tops.items) (slice_index self.now.lasts.items h)) trips.now
            self.now.lasts.items low (slice_index self.now.nexts.items p) (slice_index self.now.jumps.items b) p)) }
    {
        let calls = trips[self.lasts[p] as usize].calls.as_slice();
        let left = self.bound(trips, a);
        let right = self.bound(trips, b);
        if left.len() != calls.len() || right.len() != calls.len() {
            return Ok(None);
        }
        let low = least(alloc, calls, left, right)?;
        Ok(Some(low))
    }

    // Lets a route's jump leap over the two trees behind it, where they are of one size, and renews its bound.
    fn renew(&mut self, alloc: Global, trips: &[Trip], p: usize) -> Result<(), NoMemory>
        requires p { p < length self.old.lasts.items }
        requires few { length self.old.lasts.items < 2 ^ 32 }
        requires lasts { (g : ℕ) → g < length self.old.lasts.items → slice_index self.old.lasts.items g < length trips.now }
        requires chained { AreChained trips.now self.old.lasts.items self.old.tops.items self.old.nexts.items }
        requires jumped { AreJumped trips.now (length self.old.tops.items) self.old.lasts.items self.old.nexts.items self.old.jumps.items self.old.lows.items }
        requires trees { length self.old.trees.items ≡ length self.old.lasts.items }
        ensures lasts { OnOk result (self.new.lasts.items ≡ self.old.lasts.items) }
        ensures tops { OnOk result (self.new.tops.items ≡ self.old.tops.items) }
        ensures nexts { OnOk result (self.new.nexts.items ≡ self.old.nexts.items) }
        ensures jumped { OnOk result (AreJumped trips.now (length self.old.tops.items) self.old.lasts.items self.old.nexts.items self.new.jumps.items self.new.lows.items) }
        ensures trees { OnOk result (length self.new.trees.items ≡ length self.old.trees.items) }
    {
        let Some((a, b)) = self.two_trees(p) else {
            return Ok(());
        };
        let Some(low) = self.leap_of(alloc, trips, p, a, b)? else {
            return Ok(());
        };
        self.jumps[p] = self.jumps[b];
        self.lows[p] = low;
        self.grow_tree(p, a, b);
        Ok(())
    }

    // Notes that a route's tree holds the trees of two others.
    fn grow_tree(&mut self, p: usize, a: usize, b: usize)
        requires few { length self.old.trees.items < 2 ^ 32 }
        requires p { p < length self.old.trees.items }
        requires a { a < length self.old.trees.items }
        requires b { b < length self.old.trees.items }
        ensures lasts { self.new.lasts.items ≡ self.old.lasts.items }
        ensures tops { self.new.tops.items ≡ self.old.tops.items }
        ensures nexts { self.new.nexts.items ≡ self.old.nexts.items }
        ensures jumps { self.new.jumps.items ≡ self.old.jumps.items }
        ensures lows { self.new.lows.items ≡ self.old.lows.items }
        ensures trees { length self.new.trees.items ≡ length self.old.trees.items }
    {
        let link = p as u32 + 1;
        let both = self.trees[a].size.wrapping_add(self.trees[b].size);
        self.trees[p].size = both.wrapping_add(1);
        self.trees[a].above = link;
        self.trees[b].above = link;
    }

    // Renews the bounds of all trees that hold a route.
    fn raise(&mut self, alloc: Global, trips: &[Trip], g: usize) -> Result<(), NoMemory>
        requires g { g < length self.old.lasts.items }
        requires few { length self.old.lasts.items < 2 ^ 32 }
        requires lasts { (g : ℕ) → g < length self.old.lasts.items → slice_index self.old.lasts.items g < length trips.now }
        requires chained { AreChained trips.now self.old.lasts.items self.old.tops.items self.old.nexts.items }
        requires jumped { AreJumped trips.now (length self.old.tops.items) self.old.lasts.items self.old.nexts.items self.old.jumps.items self.old.lows.items }
        requires trees { length self.old.trees.items ≡ length self.old.lasts.items }
        ensures lasts { OnOk result (self.new.lasts.items ≡ self.old.lasts.items) }
        ensures tops { OnOk result (self.new.tops.items ≡ self.old.tops.items) }
        ensures nexts { OnOk result (self.new.nexts.items ≡ self.old.nexts.items) }
        ensures jumped { OnOk result (AreJumped trips.now (length self.old.tops.items) self.old.lasts.items self.old.nexts.items self.new.jumps.items self.new.lows.items) }
        ensures trees { OnOk result (length self.new.trees.items ≡ length self.old.trees.items) }
    {
        let mut link = self.trees[g].above;
        for _level in 0..LEVELS {
            if link == 0 || link as usize > self.lasts.len() {
                return Ok(());
            }
            let p = (link - 1) as usize;
            self.renew(alloc, trips, p)?;
            link = self.trees[p].above;
        }
        Ok(())
    }

    /// Puts the trip u behind the last trip of a route.
    pub fn join(
        &mut self,
        alloc: Global,
        trips: &[Trip],
        g: usize,
        u: usize,
    ) -> Result<(), NoMemory>
        requires u { u < length trips.now }
        requires few_trips { length trips.now < 2 ^ 32 - 1 }
        requires g { g < length self.old.lasts.items }
        requires few { length self.old.lasts.items < 2 ^ 32 }
        requires can { CanStand trips.now (slice_index self.old.lasts.items g) u }
        requires lasts { (g : ℕ) → g < length self.old.lasts.items → slice_index self.old.lasts.items g < length trips.now }
        requires chained { AreChained trips.now self.old.lasts.items self.old.tops.items self.old.nexts.items }
        requires jumped { AreJumped trips.now (length self.old.tops.items) self.old.lasts.items self.old.nexts.items self.old.jumps.items self.old.lows.items }
        requires trees { length self.old.trees.items ≡ length self.old.lasts.items }
        ensures lasts { OnOk result (self.new.lasts.items ≡ slice_set self.old.lasts.items g u) }
        ensures tops { OnOk result (self.new.tops.items ≡ self.old.tops.items) }
        ensures nexts { OnOk result (self.new.nexts.items ≡ self.old.nexts.items) }
        ensures jumped { OnOk result (AreJumped trips.now (length self.new.tops.items) self.new.lasts.items self.new.nexts.items self.new.jumps.items self.new.lows.items) }
        ensures trees { OnOk result (length self.new.trees.items ≡ length self.new.lasts.items) }
    {
        self.lasts[g] = u as u32;
        self.raise(alloc, trips, g)
    }

    // A route with the trip u alone on top of its chain. Its jump leaps over itself.
    fn push(&mut self, alloc: Global, u: u32, chain: usize) -> Result<(), NoMemory>
        requires below { chain < length self.old.tops.items }
        requires few { length self.old.lasts.items < 2 ^ 32 - 1 }
        ensures lasts { OnOk result (self.new.lasts.items ≡ self.old.lasts.items ++ u ∷ []) }
        ensures tops { OnOk result (self.new.tops.items ≡ slice_set self.old.tops.items chain (length self.old.lasts.items + 1)) }
        ensures nexts { OnOk result (self.new.nexts.items ≡ self.old.nexts.items ++ slice_index self.old.tops.items chain ∷ []) }
        ensures jumps { OnOk result (self.new.jumps.items ≡ self.old.jumps.items ++ slice_index self.old.tops.items chain ∷ []) }
        ensures lows { OnOk result (self.new.lows.items ≡ self.old.lows.items ++ [] ∷ []) }
        ensures trees { OnOk result (length self.new.trees.items ≡ length self.old.trees.items + 1) }
    {
        let next = self.tops[chain];
        self.nexts.push(next)?;
        self.jumps.push(next)?;
        self.lows.push(List::new(alloc))?;
        self.trees.push(Tree { size: 1, above: 0 })?;
        self.lasts.push(u)?;
        self.tops[chain] = self.lasts.len() as u32;
        Ok(())
    }

    /// Opens a route with the trip u.
    pub fn open(
        &mut self,
        alloc: Global,
        trips: &[Trip],
        u: usize,
        chain: usize,
    ) -> Result<(), NoMemory>
        requires u { u < length trips.now }
        requires few_trips { length trips.now < 2 ^ 32 - 1 }
        requires below { chain < length self.old.tops.items }
        requires chain { chain ≡ bucket_of trips.now (length self.old.tops.items) u }
        requires few { length self.old.lasts.items < 2 ^ 32 - 1 }
        requires lasts { (g : ℕ) → g < length self.old.lasts.items → slice_index self.old.lasts.items g < length trips.now }
        requires chained { AreChained trips.now self.old.lasts.items self.old.tops.items self.old.nexts.items }
        requires jumped { AreJumped trips.now (length self.old.tops.items) self.old.lasts.items self.old.nexts.items self.old.jumps.items self.old.lows.items }
        requires trees { length self.old.trees.items ≡ length self.old.lasts.items }
        ensures lasts { OnOk result (self.new.lasts.items ≡ self.old.lasts.items ++ u ∷ []) }
        ensures tops { OnOk result (self.new.tops.items ≡ slice_set self.old.tops.items chain (length self.old.lasts.items + 1)) }
        ensures nexts { OnOk result (self.new.nexts.items ≡ self.old.nexts.items ++ slice_index self.old.tops.items chain ∷ []) }
        ensures jumped { OnOk result (AreJumped trips.now (length self.new.tops.items) self.new.lasts.items self.new.nexts.items self.new.jumps.items self.new.lows.items) }
        ensures trees { OnOk result (length self.new.trees.items ≡ length self.new.lasts.items) }
    {
        let p = self.lasts.len();
        self.push(alloc, u as u32, chain)?;
        self.renew(alloc, trips, p)
    }
}
