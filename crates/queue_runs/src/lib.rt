// Long and odd runs of queues, as tests: every chain length at every offset, full queues, positions past the wrap, every
// refusal. Generic over the queue, so that each layout is run alike.

#![tactic(auto)]

#[cfg(test)]
mod bring_up;
#[cfg(test)]
mod refusals;
#[cfg(test)]
mod rounds;
#[cfg(test)]
mod split_rows;
