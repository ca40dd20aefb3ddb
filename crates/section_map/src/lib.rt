//! A map whose keys are sections: strings of octets, often long, of which two rarely differ early.
//!
//! A section is looked up by its sum, a number of 64 bits. An ordered map has the first section of each sum with its
//! value; the others, whose sum another has, are in an ordered map by section. So a search takes the comparison of one
//! section, and as many comparisons of numbers as the logarithm of the number of sections; if sections were chosen to
//! have one sum, as many comparisons of sections, and no more.
//!
//! Contracts see which value each section has (`at_section` of `specs/Sections`), and no sums.
#![tactic(auto)]

mod map;
mod sum;

pub use map::SectionMap;
