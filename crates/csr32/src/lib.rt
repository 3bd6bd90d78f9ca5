// A sparse matrix in compressed rows: the causes 1 to 8, of which whoever walks a matrix checks 1 to 7 first, its diagonal, and the
// coarse columns of its rows.
#![tactic(auto)]

mod diagonal; // diagonal.rt: the sums stored on the diagonal
mod groups; // groups.rt: the coarse columns of a matrix's rows
mod matrix; // matrix.rt: a lent matrix and its checks
mod rows; // rows.rt: compressed rows that fit
mod square; // square.rt: an accepted square matrix

pub use groups::Groups;
pub use matrix::Csr;
pub use rows::CompressedRows;
pub use square::SquareCsr;
