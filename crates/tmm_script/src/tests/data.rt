// Lines of a script, parted by line breaks.

// Premises, as they are printed.
pub const PREMISES: &[u8] = b"\
class c f\n\
class C f1 f2 f3 f4 f5 f6 f7 f8\n\
class a a\n\
kind T\n\
kind a_-9\n\
kind abcdefghijklmnopqrstuvwx\n\
point start\n\
point if\n\
point horizon\n\
event e t\n\
token k f\n\
span k f\n\
dist d p q 0 0\n\
dist d p.end start -1000000000 1000000000\n\
dist d start start * 5\n\
dist if if.end start.end 5 *\n\
rule r t 1 1 x\n\
rule r t 1000000000 * if\n\
rule r t 7 9 x if f\n\
rule r t 7 9 if if if if f g\n\
protect x f p q\n\
protect x f start k.end";

// Premises of version 2, as they are printed.
pub const PREMISES_OF_2: &[u8] = b"\
rule r t 1 1 x\n\
rule r t 1 1 x if f\n\
rule r t 1 1 x unless g\n\
rule r t 7 9 x if f g h i unless j k\n\
rule r t 7 9 unless if if if unless if unless\n\
against a f g\n\
against against if unless";

// Lines in no form of version 2.
pub const REFUSED_OF_2: &[u8] = b"\
tmm 2\n\
tmm 1\n\
rule r t 1 1 x if\n\
rule r t 1 1 x if unless g\n\
rule r t 1 1 x unless\n\
rule r t 1 1 x unless g if h\n\
rule r t 1 1 x if a b c d e unless g\n\
against\n\
against a\n\
against a f\n\
against a f f\n\
against a f g h\n\
against a f.end g\n\
against a f g.end\n\
against 9a f g";

// Other changes.
pub const CHANGES: &[u8] = b"\
horizon 0\n\
horizon 100000\n\
erase start\n\
erase class";

// Questions.
pub const QUESTIONS: &[u8] = b"\
bounds p q\n\
bounds start.end k/r\n\
bounds start/r e/r/s\n\
path start p.end\n\
ask f a/b/c start\n\
why start\n\
why e/r\n\
check\n\
list\n\
dump\n\
audit\n\
size";

// Lines in no form.
pub const REFUSED: &[u8] = b"\
classes c f\n\
Class c f\n\
kin\n\
class\n\
class c\n\
class c a b c d e f g h i\n\
class c a b.end\n\
kind\n\
kind a b\n\
kind 9a\n\
kind _a\n\
kind abcdefghijklmnopqrstuvwxy\n\
point p.end\n\
point a/b\n\
point *\n\
event e\n\
event e t u\n\
token k\n\
token k 1\n\
span k f g\n\
dist d p q 0\n\
dist d p q 0 0 0\n\
dist d p q 1 0\n\
dist d p q * *\n\
dist d p q 01 5\n\
dist d p q -0 5\n\
dist d p q +1 5\n\
dist d p q 00 5\n\
dist d p q - 5\n\
dist d p q 1- 5\n\
dist d p q -01 5\n\
dist d p q 0 1000000001\n\
dist d p q -1000000001 0\n\
dist d p q 0 4294967296\n\
dist d p q 0 18446744073709551616\n\
dist d p/r q 0 0\n\
dist d p.end.end q 0 0\n\
dist d .end q 0 0\n\
dist p q 0 0\n\
rule r t 0 1 x\n\
rule r t -1 1 x\n\
rule r t * 1 x\n\
rule r t 2 1 x\n\
rule r t 1 1\n\
rule r t 1 1 x if\n\
rule r t 1 1 x unless f\n\
rule r t 1 1 x y\n\
rule r t 1 1 x y if\n\
rule r t 1 1 x if f g h i j\n\
rule r t 1 1 x if f.end\n\
rule r t 1 1 x.end\n\
protect x f p\n\
protect x f p q r\n\
protect x f p/r q\n\
horizon\n\
horizon -1\n\
horizon 100001\n\
horizon *\n\
horizon 007\n\
horizon 1 2\n\
erase\n\
erase p.end\n\
erase a/b\n\
bounds p\n\
bounds p q r\n\
bounds p/ q\n\
bounds /p q\n\
bounds p//q r\n\
bounds p.end/r q\n\
path p p/q.end\n\
ask f.end p q\n\
ask f p\n\
why p.end\n\
why *\n\
why\n\
check now\n\
list a\n\
dump #\n\
audit audit\n\
size 1";
