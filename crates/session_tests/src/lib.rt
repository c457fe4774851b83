//! Tests of sessions of `serve`, and of what goes wrong outside: devices that fail, and octets that nobody should send. There is nothing else here.
#![tactic(auto)]

#[cfg(test)]
mod at_once;
#[cfg(test)]
mod devices;
#[cfg(test)]
mod failing_sessions;
#[cfg(test)]
mod hostile;
#[cfg(test)]
mod serving;
#[cfg(test)]
mod several_feeds;
#[cfg(test)]
mod streams;
