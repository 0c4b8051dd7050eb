//! Questions with answers from an independent program that follows the definitions.
mod accepting;
mod asking;
mod combined;
mod constants;
mod declared;
mod hosts;
mod lists;
mod numbers;
mod presenting;
mod quotes;
mod raw_bytes;
mod user_types;
mod words;
