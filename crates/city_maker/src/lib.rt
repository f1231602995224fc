//! A generated city, for trying the planner at any size without a file.
//!
//! [`city`] makes a network and twenty queries from three numbers: how many rows and columns of vertices the city has, how
//! many lines run along them, and the number from which all draws are made. `specs/City.antt` defines the city, and
//! `specs/Draws.antt`, `specs/Lines.antt`, `specs/Streets.antt`, `specs/Asked.antt` and `specs/Order.antt` its parts: the
//! draws, the lines with their stops and trips, the streets, the queries, and the numbers of trips.
#![tactic(auto)]

mod draws;
mod line;
mod make;
mod order;
mod queries;
mod stops;
mod streets;
mod trips;

pub use make::{Generated, city};
