//! Laws of the functions of the library, each on a function of its own without a body.
ghost use Rattle.c_library_laws.specs.Memory.{
  FreeOfAnotherPlaceTraps,
  FreeOfNullDoesNothing,
  FreeReleases,
  GetcharEnds,
  GetcharReads,
  MallocAllocates,
  RunsAreEnded,
};
ghost use Rattle.c_library_laws.specs.Printed.{PrintfPrints, PutcharWrites, PutsPrints};

/// `printf` copies ordinary characters, writes `%` for `%%`, and for each other conversion what it makes of the next argument: `%d` an `int` as [-]dddd,
/// `%u` an `unsigned` as dddd, `%c` an `int` as an `unsigned char`, and `%s` the characters of a string up to its null character (C99 7.19.6.1p3, p8).
pub fn printf_prints()
    ensures { PrintfPrints }
{}

/// `puts` writes a string and a new-line, and `putchar` its argument as an `unsigned char` (C99 7.19.7.10, 7.19.7.9).
pub fn puts_and_putchar_print()
    ensures string { PutsPrints }
    ensures character { PutcharWrites }
{}

/// `getchar` gives the next byte of the input and goes past it, and at its end a negative number (C99 7.19.7.6).
pub fn getchar_reads()
    ensures next { GetcharReads }
    ensures end { GetcharEnds }
{}

/// `malloc` gives a pointer to a new object of so many indeterminate cells, or null (C99 7.20.3p1, 7.20.3.3).
pub fn malloc_allocates()
    ensures { MallocAllocates }
{}

/// `free` ends the lifetime of an object of `malloc` and changes no other; null is left alone, and any other place is a trap (C99 7.20.3.2).
pub fn free_releases()
    ensures object { FreeReleases }
    ensures null { FreeOfNullDoesNothing }
    ensures other { FreeOfAnotherPlaceTraps }
{}

/// `exit`, `abort` and a failed `assert` end the run, each in its way (C99 7.20.4.3, 7.20.4.1, 7.2.1.1).
pub fn exit_abort_and_assert_end_runs()
    ensures { RunsAreEnded }
{}
