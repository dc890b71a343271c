//! Bucket tables of metric points: lines in, tables out.
//!
//! A point is a value of a series at a minute, and a bucket is a stretch of minutes of one series.
//! `item` has the lines of an input and how a point's series and minute make its key, `parse` reads
//! them; `bucket` keeps the points of one bucket and `values` their values, `rollup` all points
//! with their buckets, and `summary` prints a table. What a table is stands in
//! `specs/Buckets.antt`, apart from how `rollup` keeps it up to date.
#![tactic(auto)]

pub mod bucket;
pub mod item;
pub mod parse;
pub mod rollup;
pub mod summary;
#[cfg(test)]
mod tests;
pub mod values;
