//! Tests of gg_bits. Each row of a table is a call of an operation and its answer. The answer is a type and a value that Python's whole numbers gave,
//! or the fault of the operands. Names and lists are copied when there is enough memory.

mod arithmetic_rows;
mod bit_rows;
mod calls;
mod choice_rows;
mod fault_rows;
mod parameter_rows;
mod tables;
mod texts;
mod unary_rows;
