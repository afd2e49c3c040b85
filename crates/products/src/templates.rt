// Product definition templates (section 4): the supported numbers, and where a template holds its
// generating process, its time and its surfaces, by one table with a row for each template, and by
// what the Manual has otherwise.
ghost use Rattle.std.specs.Prelude.{◌≡◌, get_or};
ghost use Rattle.products.specs.Templates.{is_supported};
ghost use Rattle.products.specs.Readings.{by_reading, offsets_of};
ghost use Rattle.products.specs.Rows.{none, column, columns, offsets_by};
ghost use Rattle.products.specs.declared.templates.TemplateReading.TheVariants.{ByManual};

// By whom templates are read (document 02, Ticket 6): as the crate and document 01 do, or by the
// Manual. They differ in the time of 4.44 and in the generating process of 4.47. A caller names
// one.
#[derive(Clone, Copy)]
pub enum TemplateReading {
    AsCrate,
    ByManual,
}

// How many octets a time has behind its unit.
#[derive(Clone, Copy)]
pub enum TimeOctets {
    Two,
    Four,
}

// Where a template holds what a product is asked for: the type of generating process, the unit of
// time with the time, so many octets wide, behind it, the first surface with the second behind it.
#[derive(Clone, Copy)]
pub struct Offsets {
    pub process: Option<usize>,
    pub time: Option<usize>,
    pub width: TimeOctets,
    pub surfaces: Option<usize>,
}

// Is this a product definition template that we know (WMO Code table 4.0, version 30)?
pub(crate) fn supported(template: u16) -> bool
    ensures { result ≡ is_supported template }
{
    match template {
        0..=15 => true,
        20 => true,
        30..=35 => true,
        40..=49 => true,
        51 => true,
        53..=63 => true,
        67..=68 => true,
        70..=73 => true,
        76..=88 => true,
        91..=98 => true,
        254 => true,
        1000..=1002 => true,
        1100..=1101 => true,
        _ => false,
    }
}

// A column of a row: an index, or none where the mark stands.
fn column_of(octet: u32) -> Option<usize>
    ensures { result ≡ column octet }
{
    if octet == NO {
        return None;
    }
    Some(octet as usize)
}

// What a row says of its template, as the crate has it. A template behind the last row has no
// index.
fn row_of(rows: &[u32], template: u16) -> Offsets
    ensures { result ≡ columns (get_or rows.now template none) }
{
    let at = template as usize;
    if rows.len() <= at {
        return Offsets {
            process: None,
            time: None,
            width: TimeOctets::Four,
            surfaces: None,
        };
    }
    let row = rows[at];
    Offsets {
        process: column_of(row % COLUMN),
        time: column_of(row / TIME % COLUMN),
        width: TimeOctets::Four,
        surfaces: column_of(row / SURFACES),
    }
}

// What the Manual has otherwise than the crate (document 02, Ticket 6): the time of 4.44 is the
// octets 32 and 33, and the generating process of 4.47 is octet 25, as in 4.44 to 4.46.
fn by_manual(template: u16, as_crate: Offsets) -> Offsets
    ensures { result ≡ by_reading ByManual template as_crate }
{
    match template {
        44 => Offsets {
            width: TimeOctets::Two,
            ..as_crate
        },
        47 => Offsets {
            process: Some(15),
            ..as_crate
        },
        _ => as_crate,
    }
}

// Where a template of this number, supported or not, holds its generating process, its time and
// its surfaces, by a reading, in a lent table of any rows. What the Manual has otherwise it has
// whatever the rows say, also behind the last.
pub fn offsets_by(rows: &[u32], reading: TemplateReading, template: u16) -> Offsets
    ensures { result ≡ offsets_by rows.now reading template }
{
    let as_crate = row_of(rows, template);
    match reading {
        TemplateReading::AsCrate => as_crate,
        TemplateReading::ByManual => by_manual(template, as_crate),
    }
}

// Where a template of this number, supported or not, holds them by a reading, in the table `ROWS`:
// what document 01's ranges say of it, and the Manual's corrections if it is read by the Manual.
pub fn offsets_at(reading: TemplateReading, template: u16) -> Offsets
    ensures { result ≡ offsets_of reading template }
{
    offsets_by(&ROWS, reading, template)
}

// A row has three columns, an octet each. What a column counts in its row:
const PROCESS: u32 = 1;

const TIME: u32 = 256;

const SURFACES: u32 = 65_536;

// So many values has a column.
const COLUMN: u32 = 256;

// The mark of a column without an index. It is above every index, and never told as one.
const NO: u32 = 255;

// The row of a template without any: the mark in each column.
const NONE: u32 = 0xff_ff_ff;

// The table (document 02, Ticket 4): a row for each template, 0 to 1101, its number behind it. An
// index counts octets from the template's first one, which is octet 10 of section 4: with 10 added
// it is the octet that the Manual's page of the template names (docs/TEMPLATES.md shows them so).
pub const ROWS: [u32; 1102] = [
    02 * PROCESS + 08 * TIME + 13 * SURFACES, // 0
    02 * PROCESS + 08 * TIME + 13 * SURFACES, // 1
    02 * PROCESS + 08 * TIME + 13 * SURFACES, // 2
    02 * PROCESS + 08 * TIME + 13 * SURFACES, // 3
    02 * PROCESS + 08 * TIME + 13 * SURFACES, // 4
    02 * PROCESS + 08 * TIME + 13 * SURFACES, // 5
    02 * PROCESS + 08 * TIME + 13 * SURFACES, // 6
    02 * PROCESS + 08 * TIME + 13 * SURFACES, // 7
    02 * PROCESS + 08 * TIME + 13 * SURFACES, // 8
    02 * PROCESS + 08 * TIME + 13 * SURFACES, // 9
    02 * PROCESS + 08 * TIME + 13 * SURFACES, // 10
    02 * PROCESS + 08 * TIME + 13 * SURFACES, // 11
    02 * PROCESS + 08 * TIME + 13 * SURFACES, // 12
    02 * PROCESS + 08 * TIME + 13 * SURFACES, // 13
    02 * PROCESS + 08 * TIME + 13 * SURFACES, // 14
    02 * PROCESS + 08 * TIME + 13 * SURFACES, // 15
    02 * PROCESS + NO * TIME + NO * SURFACES, // 16
    02 * PROCESS + NO * TIME + NO * SURFACES, // 17
    02 * PROCESS + NO * TIME + NO * SURFACES, // 18
    02 * PROCESS + NO * TIME + NO * SURFACES, // 19
    02 * PROCESS + NO * TIME + NO * SURFACES, // 20
    02 * PROCESS + NO * TIME + NO * SURFACES, // 21
    02 * PROCESS + NO * TIME + NO * SURFACES, // 22
    02 * PROCESS + NO * TIME + NO * SURFACES, // 23
    02 * PROCESS + NO * TIME + NO * SURFACES, // 24
    02 * PROCESS + NO * TIME + NO * SURFACES, // 25
    02 * PROCESS + NO * TIME + NO * SURFACES, // 26
    02 * PROCESS + NO * TIME + NO * SURFACES, // 27
    02 * PROCESS + NO * TIME + NO * SURFACES, // 28
    02 * PROCESS + NO * TIME + NO * SURFACES, // 29
    02 * PROCESS + NO * TIME + NO * SURFACES, // 30
    02 * PROCESS + NO * TIME + NO * SURFACES, // 31
    02 * PROCESS + 08 * TIME + NO * SURFACES, // 32
    02 * PROCESS + 08 * TIME + NO * SURFACES, // 33
    02 * PROCESS + 08 * TIME + NO * SURFACES, // 34
    02 * PROCESS + NO * TIME + NO * SURFACES, // 35
    02 * PROCESS + NO * TIME + NO * SURFACES, // 36
    02 * PROCESS + NO * TIME + NO * SURFACES, // 37
    02 * PROCESS + NO * TIME + NO * SURFACES, // 38
    02 * PROCESS + NO * TIME + NO * SURFACES, // 39
    04 * PROCESS + 10 * TIME + 15 * SURFACES, // 40
    04 * PROCESS + 10 * TIME + 15 * SURFACES, // 41
    04 * PROCESS + 10 * TIME + 15 * SURFACES, // 42
    04 * PROCESS + 10 * TIME + 15 * SURFACES, // 43
    15 * PROCESS + 21 * TIME + 24 * SURFACES, // 44
    15 * PROCESS + 21 * TIME + 26 * SURFACES, // 45
    15 * PROCESS + 21 * TIME + 26 * SURFACES, // 46
    02 * PROCESS + 21 * TIME + 26 * SURFACES, // 47
    26 * PROCESS + 32 * TIME + 37 * SURFACES, // 48
    26 * PROCESS + 32 * TIME + 37 * SURFACES, // 49
    NONE, // 50
    02 * PROCESS + 08 * TIME + 13 * SURFACES, // 51
    NONE, // 52
    NONE, // 53
    NONE, // 54
    08 * PROCESS + 14 * TIME + 19 * SURFACES, // 55
    08 * PROCESS + 14 * TIME + 19 * SURFACES, // 56
    NONE, // 57
    NONE, // 58
    08 * PROCESS + 14 * TIME + 19 * SURFACES, // 59
    02 * PROCESS + 08 * TIME + 13 * SURFACES, // 60
    02 * PROCESS + 08 * TIME + 13 * SURFACES, // 61
    08 * PROCESS + 14 * TIME + 19 * SURFACES, // 62
    08 * PROCESS + 14 * TIME + 19 * SURFACES, // 63
    NONE, // 64
    NONE, // 65
    NONE, // 66
    NONE, // 67
    NONE, // 68
    NONE, // 69
    07 * PROCESS + 13 * TIME + 18 * SURFACES, // 70
    07 * PROCESS + 13 * TIME + 18 * SURFACES, // 71
    07 * PROCESS + 13 * TIME + 18 * SURFACES, // 72
    07 * PROCESS + 13 * TIME + 18 * SURFACES, // 73
    NONE, // 74
    NONE, // 75
    05 * PROCESS + 11 * TIME + 16 * SURFACES, // 76
    05 * PROCESS + 11 * TIME + 16 * SURFACES, // 77
    05 * PROCESS + 11 * TIME + 16 * SURFACES, // 78
    05 * PROCESS + 11 * TIME + 16 * SURFACES, // 79
    27 * PROCESS + 33 * TIME + 38 * SURFACES, // 80
    27 * PROCESS + 33 * TIME + 38 * SURFACES, // 81
    16 * PROCESS + 22 * TIME + 27 * SURFACES, // 82
    02 * PROCESS + 22 * TIME + 27 * SURFACES, // 83
    16 * PROCESS + 22 * TIME + 27 * SURFACES, // 84
    15 * PROCESS + 21 * TIME + 26 * SURFACES, // 85
    02 * PROCESS + 08 * TIME + 13 * SURFACES, // 86
    02 * PROCESS + 08 * TIME + 13 * SURFACES, // 87
    02 * PROCESS + 26 * TIME + 05 * SURFACES, // 88
    02 * PROCESS + NO * TIME + NO * SURFACES, // 89
    02 * PROCESS + NO * TIME + NO * SURFACES, // 90
    02 * PROCESS + 08 * TIME + 13 * SURFACES, // 91
    NONE, // 92
    NONE, // 93
    NONE, // 94
    NONE, // 95
    NONE, // 96
    NONE, // 97
    NONE, // 98
    NONE, // 99
    NONE, // 100
    NONE, // 101
    NONE, // 102
    NONE, // 103
    NONE, // 104
    NONE, // 105
    NONE, // 106
    NONE, // 107
    NONE, // 108
    NONE, // 109
    NONE, // 110
    NONE, // 111
    NONE, // 112
    NONE, // 113
    NONE, // 114
    NONE, // 115
    NONE, // 116
    NONE, // 117
    NONE, // 118
    NONE, // 119
    NONE, // 120
    NONE, // 121
    NONE, // 122
    NONE, // 123
    NONE, // 124
    NONE, // 125
    NONE, // 126
    NONE, // 127
    NONE, // 128
    NONE, // 129
    NONE, // 130
    NONE, // 131
    NONE, // 132
    NONE, // 133
    NONE, // 134
    NONE, // 135
    NONE, // 136
    NONE, // 137
    NONE, // 138
    NONE, // 139
    NONE, // 140
    NONE, // 141
    NONE, // 142
    NONE, // 143
    NONE, // 144
    NONE, // 145
    NONE, // 146
    NONE, // 147
    NONE, // 148
    NONE, // 149
    NONE, // 150
    NONE, // 151
    NONE, // 152
    NONE, // 153
    NONE, // 154
    NONE, // 155
    NONE, // 156
    NONE, // 157
    NONE, // 158
    NONE, // 159
    NONE, // 160
    NONE, // 161
    NONE, // 162
    NONE, // 163
    NONE, // 164
    NONE, // 165
    NONE, // 166
    NONE, // 167
    NONE, // 168
    NONE, // 169
    NONE, // 170
    NONE, // 171
    NONE, // 172
    NONE, // 173
    NONE, // 174
    NONE, // 175
    NONE, // 176
    NONE, // 177
    NONE, // 178
    NONE, // 179
    NONE, // 180
    NONE, // 181
    NONE, // 182
    NONE, // 183
    NONE, // 184
    NONE, // 185
    NONE, // 186
    NONE, // 187
    NONE, // 188
    NONE, // 189
    NONE, // 190
    NONE, // 191
    NONE, // 192
    NONE, // 193
    NONE, // 194
    NONE, // 195
    NONE, // 196
    NONE, // 197
    NONE, // 198
    NONE, // 199
    NONE, // 200
    NONE, // 201
    NONE, // 202
    NONE, // 203
    NONE, // 204
    NONE, // 205
    NONE, // 206
    NONE, // 207
    NONE, // 208
    NONE, // 209
    NONE, // 210
    NONE, // 211
    NONE, // 212
    NONE, // 213
    NONE, // 214
    NONE, // 215
    NONE, // 216
    NONE, // 217
    NONE, // 218
    NONE, // 219
    NONE, // 220
    NONE, // 221
    NONE, // 222
    NONE, // 223
    NONE, // 224
    NONE, // 225
    NONE, // 226
    NONE, // 227
    NONE, // 228
    NONE, // 229
    NONE, // 230
    NONE, // 231
    NONE, // 232
    NONE, // 233
    NONE, // 234
    NONE, // 235
    NONE, // 236
    NONE, // 237
    NONE, // 238
    NONE, // 239
    NONE, // 240
    NONE, // 241
    NONE, // 242
    NONE, // 243
    NONE, // 244
    NONE, // 245
    NONE, // 246
    NONE, // 247
    NONE, // 248
    NONE, // 249
    NONE, // 250
    NONE, // 251
    NONE, // 252
    NONE, // 253
    02 * PROCESS + NO * TIME + NO * SURFACES, // 254
    NONE, // 255
    NONE, // 256
    NONE, // 257
    NONE, // 258
    NONE, // 259
    NONE, // 260
    NONE, // 261
    NONE, // 262
    NONE, // 263
    NONE, // 264
    NONE, // 265
    NONE, // 266
    NONE, // 267
    NONE, // 268
    NONE, // 269
    NONE, // 270
    NONE, // 271
    NONE, // 272
    NONE, // 273
    NONE, // 274
    NONE, // 275
    NONE, // 276
    NONE, // 277
    NONE, // 278
    NONE, // 279
    NONE, // 280
    NONE, // 281
    NONE, // 282
    NONE, // 283
    NONE, // 284
    NONE, // 285
    NONE, // 286
    NONE, // 287
    NONE, // 288
    NONE, // 289
    NONE, // 290
    NONE, // 291
    NONE, // 292
    NONE, // 293
    NONE, // 294
    NONE, // 295
    NONE, // 296
    NONE, // 297
    NONE, // 298
    NONE, // 299
    NONE, // 300
    NONE, // 301
    NONE, // 302
    NONE, // 303
    NONE, // 304
    NONE, // 305
    NONE, // 306
    NONE, // 307
    NONE, // 308
    NONE, // 309
    NONE, // 310
    NONE, // 311
    NONE, // 312
    NONE, // 313
    NONE, // 314
    NONE, // 315
    NONE, // 316
    NONE, // 317
    NONE, // 318
    NONE, // 319
    NONE, // 320
    NONE, // 321
    NONE, // 322
    NONE, // 323
    NONE, // 324
    NONE, // 325
    NONE, // 326
    NONE, // 327
    NONE, // 328
    NONE, // 329
    NONE, // 330
    NONE, // 331
    NONE, // 332
    NONE, // 333
    NONE, // 334
    NONE, // 335
    NONE, // 336
    NONE, // 337
    NONE, // 338
    NONE, // 339
    NONE, // 340
    NONE, // 341
    NONE, // 342
    NONE, // 343
    NONE, // 344
    NONE, // 345
    NONE, // 346
    NONE, // 347
    NONE, // 348
    NONE, // 349
    NONE, // 350
    NONE, // 351
    NONE, // 352
    NONE, // 353
    NONE, // 354
    NONE, // 355
    NONE, // 356
    NONE, // 357
    NONE, // 358
    NONE, // 359
    NONE, // 360
    NONE, // 361
    NONE, // 362
    NONE, // 363
    NONE, // 364
    NONE, // 365
    NONE, // 366
    NONE, // 367
    NONE, // 368
    NONE, // 369
    NONE, // 370
    NONE, // 371
    NONE, // 372
    NONE, // 373
    NONE, // 374
    NONE, // 375
    NONE, // 376
    NONE, // 377
    NONE, // 378
    NONE, // 379
    NONE, // 380
    NONE, // 381
    NONE, // 382
    NONE, // 383
    NONE, // 384
    NONE, // 385
    NONE, // 386
    NONE, // 387
    NONE, // 388
    NONE, // 389
    NONE, // 390
    NONE, // 391
    NONE, // 392
    NONE, // 393
    NONE, // 394
    NONE, // 395
    NONE, // 396
    NONE, // 397
    NONE, // 398
    NONE, // 399
    NONE, // 400
    NONE, // 401
    NONE, // 402
    NONE, // 403
    NONE, // 404
    NONE, // 405
    NONE, // 406
    NONE, // 407
    NONE, // 408
    NONE, // 409
    NONE, // 410
    NONE, // 411
    NONE, // 412
    NONE, // 413
    NONE, // 414
    NONE, // 415
    NONE, // 416
    NONE, // 417
    NONE, // 418
    NONE, // 419
    NONE, // 420
    NONE, // 421
    NONE, // 422
    NONE, // 423
    NONE, // 424
    NONE, // 425
    NONE, // 426
    NONE, // 427
    NONE, // 428
    NONE, // 429
    NONE, // 430
    NONE, // 431
    NONE, // 432
    NONE, // 433
    NONE, // 434
    NONE, // 435
    NONE, // 436
    NONE, // 437
    NONE, // 438
    NONE, // 439
    NONE, // 440
    NONE, // 441
    NONE, // 442
    NONE, // 443
    NONE, // 444
    NONE, // 445
    NONE, // 446
    NONE, // 447
    NONE, // 448
    NONE, // 449
    NONE, // 450
    NONE, // 451
    NONE, // 452
    NONE, // 453
    NONE, // 454
    NONE, // 455
    NONE, // 456
    NONE, // 457
    NONE, // 458
    NONE, // 459
    NONE, // 460
    NONE, // 461
    NONE, // 462
    NONE, // 463
    NONE, // 464
    NONE, // 465
    NONE, // 466
    NONE, // 467
    NONE, // 468
    NONE, // 469
    NONE, // 470
    NONE, // 471
    NONE, // 472
    NONE, // 473
    NONE, // 474
    NONE, // 475
    NONE, // 476
    NONE, // 477
    NONE, // 478
    NONE, // 479
    NONE, // 480
    NONE, // 481
    NONE, // 482
    NONE, // 483
    NONE, // 484
    NONE, // 485
    NONE, // 486
    NONE, // 487
    NONE, // 488
    NONE, // 489
    NONE, // 490
    NONE, // 491
    NONE, // 492
    NONE, // 493
    NONE, // 494
    NONE, // 495
    NONE, // 496
    NONE, // 497
    NONE, // 498
    NONE, // 499
    NONE, // 500
    NONE, // 501
    NONE, // 502
    NONE, // 503
    NONE, // 504
    NONE, // 505
    NONE, // 506
    NONE, // 507
    NONE, // 508
    NONE, // 509
    NONE, // 510
    NONE, // 511
    NONE, // 512
    NONE, // 513
    NONE, // 514
    NONE, // 515
    NONE, // 516
    NONE, // 517
    NONE, // 518
    NONE, // 519
    NONE, // 520
    NONE, // 521
    NONE, // 522
    NONE, // 523
    NONE, // 524
    NONE, // 525
    NONE, // 526
    NONE, // 527
    NONE, // 528
    NONE, // 529
    NONE, // 530
    NONE, // 531
    NONE, // 532
    NONE, // 533
    NONE, // 534
    NONE, // 535
    NONE, // 536
    NONE, // 537
    NONE, // 538
    NONE, // 539
    NONE, // 540
    NONE, // 541
    NONE, // 542
    NONE, // 543
    NONE, // 544
    NONE, // 545
    NONE, // 546
    NONE, // 547
    NONE, // 548
    NONE, // 549
    NONE, // 550
    NONE, // 551
    NONE, // 552
    NONE, // 553
    NONE, // 554
    NONE, // 555
    NONE, // 556
    NONE, // 557
    NONE, // 558
    NONE, // 559
    NONE, // 560
    NONE, // 561
    NONE, // 562
    NONE, // 563
    NONE, // 564
    NONE, // 565
    NONE, // 566
    NONE, // 567
    NONE, // 568
    NONE, // 569
    NONE, // 570
    NONE, // 571
    NONE, // 572
    NONE, // 573
    NONE, // 574
    NONE, // 575
    NONE, // 576
    NONE, // 577
    NONE, // 578
    NONE, // 579
    NONE, // 580
    NONE, // 581
    NONE, // 582
    NONE, // 583
    NONE, // 584
    NONE, // 585
    NONE, // 586
    NONE, // 587
    NONE, // 588
    NONE, // 589
    NONE, // 590
    NONE, // 591
    NONE, // 592
    NONE, // 593
    NONE, // 594
    NONE, // 595
    NONE, // 596
    NONE, // 597
    NONE, // 598
    NONE, // 599
    NONE, // 600
    NONE, // 601
    NONE, // 602
    NONE, // 603
    NONE, // 604
    NONE, // 605
    NONE, // 606
    NONE, // 607
    NONE, // 608
    NONE, // 609
    NONE, // 610
    NONE, // 611
    NONE, // 612
    NONE, // 613
    NONE, // 614
    NONE, // 615
    NONE, // 616
    NONE, // 617
    NONE, // 618
    NONE, // 619
    NONE, // 620
    NONE, // 621
    NONE, // 622
    NONE, // 623
    NONE, // 624
    NONE, // 625
    NONE, // 626
    NONE, // 627
    NONE, // 628
    NONE, // 629
    NONE, // 630
    NONE, // 631
    NONE, // 632
    NONE, // 633
    NONE, // 634
    NONE, // 635
    NONE, // 636
    NONE, // 637
    NONE, // 638
    NONE, // 639
    NONE, // 640
    NONE, // 641
    NONE, // 642
    NONE, // 643
    NONE, // 644
    NONE, // 645
    NONE, // 646
    NONE, // 647
    NONE, // 648
    NONE, // 649
    NONE, // 650
    NONE, // 651
    NONE, // 652
    NONE, // 653
    NONE, // 654
    NONE, // 655
    NONE, // 656
    NONE, // 657
    NONE, // 658
    NONE, // 659
    NONE, // 660
    NONE, // 661
    NONE, // 662
    NONE, // 663
    NONE, // 664
    NONE, // 665
    NONE, // 666
    NONE, // 667
    NONE, // 668
    NONE, // 669
    NONE, // 670
    NONE, // 671
    NONE, // 672
    NONE, // 673
    NONE, // 674
    NONE, // 675
    NONE, // 676
    NONE, // 677
    NONE, // 678
    NONE, // 679
    NONE, // 680
    NONE, // 681
    NONE, // 682
    NONE, // 683
    NONE, // 684
    NONE, // 685
    NONE, // 686
    NONE, // 687
    NONE, // 688
    NONE, // 689
    NONE, // 690
    NONE, // 691
    NONE, // 692
    NONE, // 693
    NONE, // 694
    NONE, // 695
    NONE, // 696
    NONE, // 697
    NONE, // 698
    NONE, // 699
    NONE, // 700
    NONE, // 701
    NONE, // 702
    NONE, // 703
    NONE, // 704
    NONE, // 705
    NONE, // 706
    NONE, // 707
    NONE, // 708
    NONE, // 709
    NONE, // 710
    NONE, // 711
    NONE, // 712
    NONE, // 713
    NONE, // 714
    NONE, // 715
    NONE, // 716
    NONE, // 717
    NONE, // 718
    NONE, // 719
    NONE, // 720
    NONE, // 721
    NONE, // 722
    NONE, // 723
    NONE, // 724
    NONE, // 725
    NONE, // 726
    NONE, // 727
    NONE, // 728
    NONE, // 729
    NONE, // 730
    NONE, // 731
    NONE, // 732
    NONE, // 733
    NONE, // 734
    NONE, // 735
    NONE, // 736
    NONE, // 737
    NONE, // 738
    NONE, // 739
    NONE, // 740
    NONE, // 741
    NONE, // 742
    NONE, // 743
    NONE, // 744
    NONE, // 745
    NONE, // 746
    NONE, // 747
    NONE, // 748
    NONE, // 749
    NONE, // 750
    NONE, // 751
    NONE, // 752
    NONE, // 753
    NONE, // 754
    NONE, // 755
    NONE, // 756
    NONE, // 757
    NONE, // 758
    NONE, // 759
    NONE, // 760
    NONE, // 761
    NONE, // 762
    NONE, // 763
    NONE, // 764
    NONE, // 765
    NONE, // 766
    NONE, // 767
    NONE, // 768
    NONE, // 769
    NONE, // 770
    NONE, // 771
    NONE, // 772
    NONE, // 773
    NONE, // 774
    NONE, // 775
    NONE, // 776
    NONE, // 777
    NONE, // 778
    NONE, // 779
    NONE, // 780
    NONE, // 781
    NONE, // 782
    NONE, // 783
    NONE, // 784
    NONE, // 785
    NONE, // 786
    NONE, // 787
    NONE, // 788
    NONE, // 789
    NONE, // 790
    NONE, // 791
    NONE, // 792
    NONE, // 793
    NONE, // 794
    NONE, // 795
    NONE, // 796
    NONE, // 797
    NONE, // 798
    NONE, // 799
    NONE, // 800
    NONE, // 801
    NONE, // 802
    NONE, // 803
    NONE, // 804
    NONE, // 805
    NONE, // 806
    NONE, // 807
    NONE, // 808
    NONE, // 809
    NONE, // 810
    NONE, // 811
    NONE, // 812
    NONE, // 813
    NONE, // 814
    NONE, // 815
    NONE, // 816
    NONE, // 817
    NONE, // 818
    NONE, // 819
    NONE, // 820
    NONE, // 821
    NONE, // 822
    NONE, // 823
    NONE, // 824
    NONE, // 825
    NONE, // 826
    NONE, // 827
    NONE, // 828
    NONE, // 829
    NONE, // 830
    NONE, // 831
    NONE, // 832
    NONE, // 833
    NONE, // 834
    NONE, // 835
    NONE, // 836
    NONE, // 837
    NONE, // 838
    NONE, // 839
    NONE, // 840
    NONE, // 841
    NONE, // 842
    NONE, // 843
    NONE, // 844
    NONE, // 845
    NONE, // 846
    NONE, // 847
    NONE, // 848
    NONE, // 849
    NONE, // 850
    NONE, // 851
    NONE, // 852
    NONE, // 853
    NONE, // 854
    NONE, // 855
    NONE, // 856
    NONE, // 857
    NONE, // 858
    NONE, // 859
    NONE, // 860
    NONE, // 861
    NONE, // 862
    NONE, // 863
    NONE, // 864
    NONE, // 865
    NONE, // 866
    NONE, // 867
    NONE, // 868
    NONE, // 869
    NONE, // 870
    NONE, // 871
    NONE, // 872
    NONE, // 873
    NONE, // 874
    NONE, // 875
    NONE, // 876
    NONE, // 877
    NONE, // 878
    NONE, // 879
    NONE, // 880
    NONE, // 881
    NONE, // 882
    NONE, // 883
    NONE, // 884
    NONE, // 885
    NONE, // 886
    NONE, // 887
    NONE, // 888
    NONE, // 889
    NONE, // 890
    NONE, // 891
    NONE, // 892
    NONE, // 893
    NONE, // 894
    NONE, // 895
    NONE, // 896
    NONE, // 897
    NONE, // 898
    NONE, // 899
    NONE, // 900
    NONE, // 901
    NONE, // 902
    NONE, // 903
    NONE, // 904
    NONE, // 905
    NONE, // 906
    NONE, // 907
    NONE, // 908
    NONE, // 909
    NONE, // 910
    NONE, // 911
    NONE, // 912
    NONE, // 913
    NONE, // 914
    NONE, // 915
    NONE, // 916
    NONE, // 917
    NONE, // 918
    NONE, // 919
    NONE, // 920
    NONE, // 921
    NONE, // 922
    NONE, // 923
    NONE, // 924
    NONE, // 925
    NONE, // 926
    NONE, // 927
    NONE, // 928
    NONE, // 929
    NONE, // 930
    NONE, // 931
    NONE, // 932
    NONE, // 933
    NONE, // 934
    NONE, // 935
    NONE, // 936
    NONE, // 937
    NONE, // 938
    NONE, // 939
    NONE, // 940
    NONE, // 941
    NONE, // 942
    NONE, // 943
    NONE, // 944
    NONE, // 945
    NONE, // 946
    NONE, // 947
    NONE, // 948
    NONE, // 949
    NONE, // 950
    NONE, // 951
    NONE, // 952
    NONE, // 953
    NONE, // 954
    NONE, // 955
    NONE, // 956
    NONE, // 957
    NONE, // 958
    NONE, // 959
    NONE, // 960
    NONE, // 961
    NONE, // 962
    NONE, // 963
    NONE, // 964
    NONE, // 965
    NONE, // 966
    NONE, // 967
    NONE, // 968
    NONE, // 969
    NONE, // 970
    NONE, // 971
    NONE, // 972
    NONE, // 973
    NONE, // 974
    NONE, // 975
    NONE, // 976
    NONE, // 977
    NONE, // 978
    NONE, // 979
    NONE, // 980
    NONE, // 981
    NONE, // 982
    NONE, // 983
    NONE, // 984
    NONE, // 985
    NONE, // 986
    NONE, // 987
    NONE, // 988
    NONE, // 989
    NONE, // 990
    NONE, // 991
    NONE, // 992
    NONE, // 993
    NONE, // 994
    NONE, // 995
    NONE, // 996
    NONE, // 997
    NONE, // 998
    NONE, // 999
    02 * PROCESS + 08 * TIME + NO * SURFACES, // 1000
    02 * PROCESS + 08 * TIME + NO * SURFACES, // 1001
    02 * PROCESS + 08 * TIME + NO * SURFACES, // 1002
    02 * PROCESS + 08 * TIME + NO * SURFACES, // 1003
    02 * PROCESS + 08 * TIME + NO * SURFACES, // 1004
    02 * PROCESS + 08 * TIME + NO * SURFACES, // 1005
    02 * PROCESS + 08 * TIME + NO * SURFACES, // 1006
    02 * PROCESS + 08 * TIME + NO * SURFACES, // 1007
    02 * PROCESS + 08 * TIME + NO * SURFACES, // 1008
    02 * PROCESS + 08 * TIME + NO * SURFACES, // 1009
    02 * PROCESS + 08 * TIME + NO * SURFACES, // 1010
    02 * PROCESS + 08 * TIME + NO * SURFACES, // 1011
    02 * PROCESS + 08 * TIME + NO * SURFACES, // 1012
    02 * PROCESS + 08 * TIME + NO * SURFACES, // 1013
    02 * PROCESS + 08 * TIME + NO * SURFACES, // 1014
    02 * PROCESS + 08 * TIME + NO * SURFACES, // 1015
    02 * PROCESS + 08 * TIME + NO * SURFACES, // 1016
    02 * PROCESS + 08 * TIME + NO * SURFACES, // 1017
    02 * PROCESS + 08 * TIME + NO * SURFACES, // 1018
    02 * PROCESS + 08 * TIME + NO * SURFACES, // 1019
    02 * PROCESS + 08 * TIME + NO * SURFACES, // 1020
    02 * PROCESS + 08 * TIME + NO * SURFACES, // 1021
    02 * PROCESS + 08 * TIME + NO * SURFACES, // 1022
    02 * PROCESS + 08 * TIME + NO * SURFACES, // 1023
    02 * PROCESS + 08 * TIME + NO * SURFACES, // 1024
    02 * PROCESS + 08 * TIME + NO * SURFACES, // 1025
    02 * PROCESS + 08 * TIME + NO * SURFACES, // 1026
    02 * PROCESS + 08 * TIME + NO * SURFACES, // 1027
    02 * PROCESS + 08 * TIME + NO * SURFACES, // 1028
    02 * PROCESS + 08 * TIME + NO * SURFACES, // 1029
    02 * PROCESS + 08 * TIME + NO * SURFACES, // 1030
    02 * PROCESS + 08 * TIME + NO * SURFACES, // 1031
    02 * PROCESS + 08 * TIME + NO * SURFACES, // 1032
    02 * PROCESS + 08 * TIME + NO * SURFACES, // 1033
    02 * PROCESS + 08 * TIME + NO * SURFACES, // 1034
    02 * PROCESS + 08 * TIME + NO * SURFACES, // 1035
    02 * PROCESS + 08 * TIME + NO * SURFACES, // 1036
    02 * PROCESS + 08 * TIME + NO * SURFACES, // 1037
    02 * PROCESS + 08 * TIME + NO * SURFACES, // 1038
    02 * PROCESS + 08 * TIME + NO * SURFACES, // 1039
    02 * PROCESS + 08 * TIME + NO * SURFACES, // 1040
    02 * PROCESS + 08 * TIME + NO * SURFACES, // 1041
    02 * PROCESS + 08 * TIME + NO * SURFACES, // 1042
    02 * PROCESS + 08 * TIME + NO * SURFACES, // 1043
    02 * PROCESS + 08 * TIME + NO * SURFACES, // 1044
    02 * PROCESS + 08 * TIME + NO * SURFACES, // 1045
    02 * PROCESS + 08 * TIME + NO * SURFACES, // 1046
    02 * PROCESS + 08 * TIME + NO * SURFACES, // 1047
    02 * PROCESS + 08 * TIME + NO * SURFACES, // 1048
    02 * PROCESS + 08 * TIME + NO * SURFACES, // 1049
    02 * PROCESS + 08 * TIME + NO * SURFACES, // 1050
    02 * PROCESS + 08 * TIME + NO * SURFACES, // 1051
    02 * PROCESS + 08 * TIME + NO * SURFACES, // 1052
    02 * PROCESS + 08 * TIME + NO * SURFACES, // 1053
    02 * PROCESS + 08 * TIME + NO * SURFACES, // 1054
    02 * PROCESS + 08 * TIME + NO * SURFACES, // 1055
    02 * PROCESS + 08 * TIME + NO * SURFACES, // 1056
    02 * PROCESS + 08 * TIME + NO * SURFACES, // 1057
    02 * PROCESS + 08 * TIME + NO * SURFACES, // 1058
    02 * PROCESS + 08 * TIME + NO * SURFACES, // 1059
    02 * PROCESS + 08 * TIME + NO * SURFACES, // 1060
    02 * PROCESS + 08 * TIME + NO * SURFACES, // 1061
    02 * PROCESS + 08 * TIME + NO * SURFACES, // 1062
    02 * PROCESS + 08 * TIME + NO * SURFACES, // 1063
    02 * PROCESS + 08 * TIME + NO * SURFACES, // 1064
    02 * PROCESS + 08 * TIME + NO * SURFACES, // 1065
    02 * PROCESS + 08 * TIME + NO * SURFACES, // 1066
    02 * PROCESS + 08 * TIME + NO * SURFACES, // 1067
    02 * PROCESS + 08 * TIME + NO * SURFACES, // 1068
    02 * PROCESS + 08 * TIME + NO * SURFACES, // 1069
    02 * PROCESS + 08 * TIME + NO * SURFACES, // 1070
    02 * PROCESS + 08 * TIME + NO * SURFACES, // 1071
    02 * PROCESS + 08 * TIME + NO * SURFACES, // 1072
    02 * PROCESS + 08 * TIME + NO * SURFACES, // 1073
    02 * PROCESS + 08 * TIME + NO * SURFACES, // 1074
    02 * PROCESS + 08 * TIME + NO * SURFACES, // 1075
    02 * PROCESS + 08 * TIME + NO * SURFACES, // 1076
    02 * PROCESS + 08 * TIME + NO * SURFACES, // 1077
    02 * PROCESS + 08 * TIME + NO * SURFACES, // 1078
    02 * PROCESS + 08 * TIME + NO * SURFACES, // 1079
    02 * PROCESS + 08 * TIME + NO * SURFACES, // 1080
    02 * PROCESS + 08 * TIME + NO * SURFACES, // 1081
    02 * PROCESS + 08 * TIME + NO * SURFACES, // 1082
    02 * PROCESS + 08 * TIME + NO * SURFACES, // 1083
    02 * PROCESS + 08 * TIME + NO * SURFACES, // 1084
    02 * PROCESS + 08 * TIME + NO * SURFACES, // 1085
    02 * PROCESS + 08 * TIME + NO * SURFACES, // 1086
    02 * PROCESS + 08 * TIME + NO * SURFACES, // 1087
    02 * PROCESS + 08 * TIME + NO * SURFACES, // 1088
    02 * PROCESS + 08 * TIME + NO * SURFACES, // 1089
    02 * PROCESS + 08 * TIME + NO * SURFACES, // 1090
    02 * PROCESS + 08 * TIME + NO * SURFACES, // 1091
    02 * PROCESS + 08 * TIME + NO * SURFACES, // 1092
    02 * PROCESS + 08 * TIME + NO * SURFACES, // 1093
    02 * PROCESS + 08 * TIME + NO * SURFACES, // 1094
    02 * PROCESS + 08 * TIME + NO * SURFACES, // 1095
    02 * PROCESS + 08 * TIME + NO * SURFACES, // 1096
    02 * PROCESS + 08 * TIME + NO * SURFACES, // 1097
    02 * PROCESS + 08 * TIME + NO * SURFACES, // 1098
    02 * PROCESS + 08 * TIME + NO * SURFACES, // 1099
    02 * PROCESS + 08 * TIME + 13 * SURFACES, // 1100
    02 * PROCESS + 08 * TIME + 13 * SURFACES, // 1101
];
