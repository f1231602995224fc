//! The vertex of a street graph that is nearest to a place on the earth.
//!
//! `nearest` finds the least `(1000 * dlat)^2 + (scale * dlon)^2` over all points, in millionths of a degree, and of
//! several vertices as near the one with the least number. It looks in grids whose cells hold up to eight cells of the
//! next finer grid, down to single points, and passes over each cell whose bounds can hold no better point. The cells
//! follow the points, however these crowd: each is as small as its points allow.
#![tactic(auto)]

mod cell;
mod grid;
mod level;
mod order;
mod target;

pub use grid::{Grid, nearest};
