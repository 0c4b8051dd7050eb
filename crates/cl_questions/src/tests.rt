//! Questions with answers from a separate program that follows the definitions.
mod asking;
mod declared_members;
mod inheriting;
mod members;
mod precedence;
mod refusals;
mod subtypes;
