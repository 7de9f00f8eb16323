//! The written form of a typed unit, in which units that differ are written differently, but for the widths of
//! addresses in first values.
//!
//! A unit is its structures, numbered s0, s1 .., and then its names, g0, g1 .., with `; ` between two, or `nothing`:
//!
//!     s0 s = T {a int, b (ptr s0)}     a structure: its tag, or `-`, an alias where it has one, its members where it
//!                                      is complete
//!     g0 x external int first 4 count 1 [1 2]
//!                                      an object: its name, or `-`, its linkage, its type, the offset of its first
//!                                      definition, or `-`, how many there are, and its first values where one is
//!                                      neither zero nor null
//!     g1 d external volatile int first - count 0 device 0 int
//!                                      a device: its address and its integer, and `const` where it is only read
//!     g2 f internal (func void int) first 9 count 1 signal params 1 locals (a int) [..]
//!                                      a function: how it is a handler, where it is one, and where it has a body, how
//!                                      many of its locals are parameters, its locals and its statements
//!
//! Types:
//!
//!     void int const volatile uchar (ptr int) (array int 3) s0 (func int char)
//!
//! First values:
//!
//!     7 null g1 &g0.1[2]@1/3     an integer; a null; a function; the place 1 of 3 at a path of members and subscripts
//!
//! Places and expressions:
//!
//!     l0 g0 d0 (elem l0 1:int) (. l0 1) (deref g0)
//!     7:int (null (ptr int)) (fun g1) (& l0) (- int g0) (+ int g0 l0) (to char g0) (qualify (ptr const int) g0)
//!     (move g0 1:int) (move- g0 1:int) (gap g0 g1) (cmp < g0 g1) (&& g0 g1) (|| g0 g1) (? g0 g1 g2)
//!     (= g0 1:int) (+= int g0 1:int) (g0 ++) (g0 --) (call (fun g1) 1:int) (irq_off) (irq_restore g0) (, g0 g1)
//!
//! A place stands for its value where an expression is asked for. Statements, with brackets round each list:
//!
//!     (do e) (if e [..] [..]) (while e [..]) (until [..] e) (for e - e [..]) (switch e {1 default: [..]} {2: [..]})
//!     break continue return (return e) empty [..]
#![tactic(auto)]

mod expressions;
mod names;
mod statements;
mod types;

pub use names::write_unit;
