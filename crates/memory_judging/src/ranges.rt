// Question 9: are the figures in range?
ghost use Rattle.std.specs.Prelude.{◌≡◌, ◌&&◌, ◌||◌, pos, neg_ℤ};
ghost use Rattle.book.specs.Books.{is_minus_one};
ghost use Rattle.book.specs.Table.{between_ℤ, is_limit, is_quantity, figures_of_line_fit, line_fits};

use book::{Figures, LimitLine, is_minus_one};

// From 0 to the largest figure? The market's largest is handed on as a number: each of these asks nothing else of a market.
fn is_limit(largest: u64, z: i64) -> bool
    ensures { result ≡ is_limit largest z }
{
    0 <= z && z as u64 <= largest
}

// As far either way?
pub fn is_balance(largest: u64, z: i64) -> bool
    ensures { result ≡ between_ℤ (neg_ℤ (pos largest)) (pos largest) z }
{
    z.unsigned_abs() <= largest
}

// A quantity or total: from 1 to 1,000,000? Beside `is_switch` it stays a function of its own: each is one range of the table, by its name.
pub fn is_quantity(n: i64) -> bool
    ensures { result ≡ is_quantity n }
{
    (1..=1000000).contains(&n)
}

// The figure of a BLOCK: 1 where it blocks, 0 where it lifts a block?
pub fn is_switch(on: i64) -> bool
    ensures { result ≡ between_ℤ (pos 0) (pos 1) on }
{
    (0..=1).contains(&on)
}

// Two limits?
fn both_limits(largest: u64, x: i64, y: i64) -> bool
    ensures { result ≡ (is_limit largest x && is_limit largest y) }
{
    is_limit(largest, x) && is_limit(largest, y)
}

// The four figures of a line: limits, or −1 throughout?
fn line_fits(largest: u64, f: Figures) -> bool
    ensures { result ≡ figures_of_line_fit largest f }
{
    f.unsets() || both_limits(largest, f.tci, f.tvi) && both_limits(largest, f.lci, f.lvi)
}

// The two figures of a group's line: limits, or −1 both?
fn group_fits(largest: u64, lcc: i64, lvc: i64) -> bool
    ensures { result ≡ ((is_minus_one lcc && is_minus_one lvc) || (is_limit largest lcc && is_limit largest lvc)) }
{
    is_minus_one(lcc) && is_minus_one(lvc) || both_limits(largest, lcc, lvc)
}

// The figures of a LIMIT.
pub fn limit_fits(largest: u64, line: LimitLine) -> bool
    ensures { result ≡ line_fits largest line }
{
    match line {
        LimitLine::Own { figures, .. } | LimitLine::Default { figures, .. } => {
            line_fits(largest, figures)
        }
        LimitLine::OfGroup { lcc, lvc, .. } => group_fits(largest, lcc, lvc),
    }
}
