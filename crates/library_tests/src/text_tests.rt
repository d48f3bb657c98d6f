//! Texts and tables, one file for each subject.

mod base;
mod cpu_texts;
mod generated;
mod group_names;
mod json;
mod lackey_lines;
mod masks;
mod numbers;
mod streams;
