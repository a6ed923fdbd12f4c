//! Texts, file by file.

mod acts;
mod books;
mod calls;
mod evidence;
mod fields;
mod files;
mod minutes;
mod numbers;
mod sentences;
mod traffic;
mod worlds;
