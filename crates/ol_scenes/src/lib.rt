//! Scenes: texts whose lines set devices in memory up, run commands over them and damage them, played line by line.
//! What each line does says `Step`.
#![tactic(auto)]

mod entries;
mod numbers;
mod pages;
mod player;
mod repeats;
mod steps;
mod texts;
mod words;
mod world;

pub use player::play;
