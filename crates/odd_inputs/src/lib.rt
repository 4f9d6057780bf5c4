// Odd inputs in tables: each row is a request with the sizes of what is lent, and what has to come of it.

#![tactic(auto)]

#[cfg(test)]
mod block_rows;
#[cfg(test)]
mod cases;
#[cfg(test)]
mod console_rows;
#[cfg(test)]
mod foreign_rows;
#[cfg(test)]
mod queue_rows;
