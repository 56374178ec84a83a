//! What is tested of settings: texts with what is told of each, files as users have them, and the maps of one. It stands
//! apart, so that the settings are proved once.
#![tactic(auto)]

#[cfg(test)]
mod kinds;
#[cfg(test)]
mod maps;
#[cfg(test)]
mod reading;
#[cfg(test)]
mod users;
