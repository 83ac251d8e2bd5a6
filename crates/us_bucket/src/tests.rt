//! What no clause says: worked numbers, the limits of the fields, and the plain program of the allowance.

mod base;
mod numbers;
mod plain;
mod rounds;
