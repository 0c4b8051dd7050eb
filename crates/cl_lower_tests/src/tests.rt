//! One part for each crate that is called.
mod damage;
mod medium;
mod outside;
mod raster;
mod records;
mod redisplay;
mod region;
mod sexp;
mod value;
