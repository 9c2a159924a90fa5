// The built-in programs, and tapes.

// Stores an auxiliary word and accepts if its lowest byte is 7.
pub const SAMPLE: &str = "; TinyRAM V=2.000 M=hv W=32 K=16
        read r1, 1
        store.w 8, r1
        load.b r2, 8
        cmpe r2, 7
        cnjmp _no
        answer 0
_no:    answer 1
";

// The primary tape holds a gain in 8.8 fixed point, a limit, and the target words; the auxiliary tape holds
// a measured word for each target. Each measured word is scaled by the gain. The errors are summed in cell 16
// and counted in the byte at 20. The answer is 0 if the mean error is at most the limit, 1 if it is above,
// and 2 if a measured word or every target is missing.
pub const TEXT: &str = "; TinyRAM V=2.000 M=hv W=32 K=16
        read r1, 0              ; gain, 8.8 fixed point
        read r2, 0              ; limit of the mean error
_next:  read r3, 0              ; target
        cjmp _done
        read r4, 1              ; measured
        cjmp _short
        mull r5, r4, r1         ; scaled by the gain
        shr r5, r5, 8
        sub r6, r3, r5          ; error
        cnjmp _add
        sub r6, r5, r3
_add:   load.w r7, 16           ; sum of errors
        add r7, r7, r6
        store.w 16, r7
        load.b r8, 20           ; count of targets
        add r8, r8, 1
        store.b 20, r8
        jmp _next
_short: answer 2
_done:  load.w r7, 16           ; mean error
        load.b r8, 20
        udiv r9, r7, r8
        cjmp _short
        cmpae r2, r9            ; at most the limit?
        cnjmp _above
        answer 0
_above: answer 1
";

pub const PRIMARY: [u32; 5] = [320, 3, 1000, 2000, 3000];

pub const AUXILIARY: [u32; 3] = [801, 1597, 2403];
