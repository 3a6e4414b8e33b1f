//! Tests of serving several links, or connections of a TCP listener, at once, through what is public.
#![tactic(auto)]

#[cfg(test)]
mod board;
#[cfg(test)]
mod board_link;
#[cfg(test)]
mod client;
#[cfg(test)]
mod renew_beside_hold;
#[cfg(test)]
mod two_connections;
#[cfg(test)]
mod two_links_at_once;
